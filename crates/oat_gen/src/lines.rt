//! Instructions and terminators, each the code of its line.

ghost use Rattle.std.specs.Prelude.{◌≡◌, [], ◌∷◌, ◌++◌, ◌+◌, ◌^◌, ◌<◌, ◌≤◌, length, OnOk};
ghost use Rattle.oat_globals.specs.{IsTerm, home_of, is_leaf};
ghost use Rattle.oat_gen.specs.Code.{instruction_code, terminator_code};
ghost use Rattle.oat_gen.specs.Marked.{marked_branch, marked_jump};
ghost use Rattle.oat_gen.specs.Steps.{IsInstrAmong};

use crate::access::{
    push_element_load, push_element_store, push_ref, push_scalar_load, push_scalar_store,
};
use crate::binary::push_binary;
use crate::calls::{push_call, push_icall};
use crate::frames::{operation_number, push_return};
use crate::globals::GlobalPlace;
use crate::items::{from_home, push_all, svc};
use crate::moves::{push_const, push_copy, push_input, push_output};
use oat_asm::{Item, Mark};
use oat_ir::{Func, Instr, Term};
use std::alloc::AllocError;

pub(crate) fn push_instruction(
    out: &mut Vec<Item>,
    places: &[GlobalPlace],
    leaf: bool,
    instr: &Instr,
) -> Result<(), AllocError>
    requires { IsInstrAmong places.now instr.now }
    ensures { OnOk result (out.new.items ≡ out.old.items ++ instruction_code places.now leaf instr.now) }
{
    match instr {
        Instr::Const { x, value } => push_const(out, leaf, *x, *value),
        Instr::Copy { x, y } => push_copy(out, leaf, *x, *y),
        Instr::Binary { op, x, y, z } => push_binary(out, leaf, *op, *x, *y, *z),
        Instr::Load { x, global } => push_scalar_load(out, places[*global as usize], leaf, *x),
        Instr::Store { global, x } => push_scalar_store(out, places[*global as usize], leaf, *x),
        Instr::LoadX { x, array, i } => {
            push_element_load(out, places[*array as usize], leaf, *x, *i)
        }
        Instr::StoreX { array, i, x } => {
            push_element_store(out, places[*array as usize], leaf, *i, *x)
        }
        Instr::RefTo { x, func } => push_ref(out, leaf, *x, *func),
        Instr::Call { x, func, args } => push_call(out, args.as_slice(), *func, *x),
        Instr::ICall { x, y, args } => push_icall(out, args.as_slice(), *y, *x),
        Instr::Input { x } => push_input(out, leaf, *x),
        Instr::Output { x } => push_output(out, leaf, *x),
    }
}

/// The end of a block of a function whose first block has this label.
pub(crate) fn push_terminator(
    out: &mut Vec<Item>,
    first: u32,
    func: &Func,
    leaf: bool,
    term: Term,
) -> Result<(), AllocError>
    requires leaf { leaf ≡ is_leaf func.now }
    requires term { IsTerm func.now term }
    requires locals { length func.now.locals ≤ 255 }
    requires labels { first + length func.now.blocks < 2 ^ 32 }
    ensures { OnOk result (out.new.items ≡ out.old.items ++ terminator_code first func.now term) }
{
    match term {
        Term::Jump { to } => push_jump(out, first + to),
        Term::Branch {
            x,
            first: taken,
            second,
        } => push_branch(out, leaf, x, first + taken, first + second),
        Term::Ret { x } => {
            let locals = func.locals.len() as u32;
            push_return(out, locals, leaf, x, operation_number(func.role))
        }
        Term::Halt => push_all(out, &[svc(0)]),
    }
}

fn push_jump(out: &mut Vec<Item>, to: u32) -> Result<(), AllocError>
    ensures { OnOk result (out.new.items ≡ out.old.items ++ marked_jump to) }
{
    out.push(Item::Mark(Mark::Jump { to }))?;
    Ok(())
}

fn push_branch(
    out: &mut Vec<Item>,
    leaf: bool,
    x: u32,
    taken: u32,
    other: u32,
) -> Result<(), AllocError>
    requires { x < 255 }
    ensures { OnOk result (out.new.items ≡ out.old.items ++ marked_branch (home_of leaf x) taken other) }
{
    let row = Mark::Branch { taken, other };
    push_all(out, &[from_home(9, leaf, x), Item::Mark(row)])
}
