//! The code of a whole program.

ghost use Rattle.std.specs.Prelude.{◌≡◌, [], ◌++◌, ◌+◌, ◌*◌, ◌≤◌, ◌<◌, IfOk, OnOk, length, nat_eq, if◌then◌else◌, ◌^◌};
ghost use Rattle.std.specs.List.{position};
ghost use Rattle.oat_globals.specs.{words_needed, expansion, is_main, IsChecked, most_words};
ghost use Rattle.oat_symbols.specs.Programs.{label_of_block, main_at};
ghost use Rattle.oat_gen.specs.GlobalPlaces.{global_places};
ghost use Rattle.oat_gen.specs.Code.{program_items};
ghost use Rattle.oat_gen.specs.Leaves.{LeavesSpareStack};
ghost use Rattle.oat_gen.specs.Steps.{IsFuncAmong, function_items, others_items};

use crate::blocks::push_function;
use crate::fault::GenFault;
use crate::globals::{GlobalPlace, global_places};
use crate::laws::{programs_have_few_words, programs_spare_stack};
use oat_asm::{Item, Items};
use oat_check::Checked;
use oat_ir::{Func, Program, Role};
use oat_list::Listed;
use std::alloc::{AllocError, Global};

/// The items of a program: `main` first, and all other functions in their order. A mark stands
/// where a row and its group will stand; `words` counts the groups too.
pub fn generate(alloc: Global, checked: &Checked) -> Result<Items, GenFault>
    ensures items { IfOk result (λ items. items ≡ program_items checked.now) }
    ensures words { IfOk result (λ items. words_needed (expansion items) ≤ most_words checked.now) }
    ensures leaves { IfOk result (λ items. LeavesSpareStack checked.now items) }
{
    let program = checked.program();
    let places = global_places(alloc, program)?;
    let mut out = Vec::new(alloc);
    push_program(&mut out, &places, program)?;
    programs_have_few_words();
    programs_spare_stack();
    Ok(Listed::from_vec(out))
}

fn push_program(
    out: &mut Vec<Item>,
    places: &[GlobalPlace],
    program: &Program,
) -> Result<(), AllocError>
    requires checked { IsChecked program.now }
    requires places { places.now ≡ global_places program.now }
    ensures { OnOk result (out.new.items ≡ out.old.items ++ program_items program.now) }
{
    let main = main_at(program);
    let first = first_label(program, main);
    push_function(
        out,
        places,
        main as u32,
        first,
        &program.funcs.as_slice()[main],
    )?;
    push_others(out, places, program, main as u32)
}

/// The functions but for main, in their order.
fn push_others(
    out: &mut Vec<Item>,
    places: &[GlobalPlace],
    program: &Program,
    main: u32,
) -> Result<(), AllocError>
    requires checked { IsChecked program.now }
    requires places { places.now ≡ global_places program.now }
    ensures { OnOk result (out.new.items ≡ out.old.items ++ others_items places.now main 0 (length program.now.funcs) program.now.funcs) }
{
    let mut first = program.funcs.len() as u32;
    for (f, func) in program.funcs.as_slice().iter().enumerate() {
        push_other(out, places, main, f as u32, first, func)?;
        first += func.blocks.len() as u32;
    }
    Ok(())
}

fn push_other(
    out: &mut Vec<Item>,
    places: &[GlobalPlace],
    main: u32,
    f: u32,
    first: u32,
    func: &Func,
) -> Result<(), AllocError>
    requires func { IsFuncAmong places.now func.now }
    requires labels { first + length func.now.blocks < 2 ^ 32 }
    ensures { OnOk result (out.new.items ≡ out.old.items ++ (if nat_eq f main then [] else function_items places.now f first func.now)) }
{
    if f == main {
        Ok(())
    } else {
        push_function(out, places, f, first, func)
    }
}

/// The index of the function where the program starts.
fn main_at(program: &Program) -> usize
    requires { IsChecked program.now }
    ensures is { result ≡ main_at program.now }
    ensures within { result < length program.now.funcs }
{
    let funcs = program.funcs.as_slice();
    find_main(funcs).unwrap_or(funcs.len())
}

fn find_main(funcs: &[Func]) -> Option<usize>
    ensures { result ≡ position is_main funcs.now }
{
    funcs.iter().position(|func| is_main(func))
}

fn is_main(func: &Func) -> bool
    ensures { result ≡ is_main func.now }
{
    matches!(func.role, Role::Main)
}

/// The label of the first block of a function.
fn first_label(program: &Program, f: usize) -> u32
    requires checked { IsChecked program.now }
    requires f { f < length program.now.funcs }
    ensures { result ≡ label_of_block program.now f 0 }
{
    let mut label = program.funcs.len() as u32;
    for func in &program.funcs.as_slice()[..f] {
        label += func.blocks.len() as u32;
    }
    label
}
