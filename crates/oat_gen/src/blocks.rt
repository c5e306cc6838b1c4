//! The code of blocks and functions, each behind its label.

ghost use Rattle.std.specs.Prelude.{◌≡◌, [], ◌∷◌, ◌++◌, ◌+◌, ◌^◌, ◌<◌, ◌≤◌, length, map, OnOk};
ghost use Rattle.oat_symbols.specs.{blocks_code};
ghost use Rattle.oat_globals.specs.{is_leaf};
ghost use Rattle.oat_gen.specs.Code.{block_code};
ghost use Rattle.oat_gen.specs.Steps.{function_items, IsBlockAmong, IsFuncAmong};

use crate::frames::{operation_number, push_start};
use crate::globals::GlobalPlace;
use crate::leaves::is_leaf;
use crate::lines::{push_instruction, push_terminator};
use oat_asm::Item;
use oat_ir::{BlockIr, Func};
use std::alloc::AllocError;

/// Function f, whose first block has this label.
pub(crate) fn push_function(
    out: &mut Vec<Item>,
    places: &[GlobalPlace],
    f: u32,
    first: u32,
    func: &Func,
) -> Result<(), AllocError>
    requires func { IsFuncAmong places.now func.now }
    requires labels { first + length func.now.blocks < 2 ^ 32 }
    ensures { OnOk result (out.new.items ≡ out.old.items ++ function_items places.now f first func.now) }
{
    out.push(Item::Label(f))?;
    let leaf = is_leaf(func);
    let locals = func.locals.len() as u32;
    push_start(out, leaf, func.params, locals, operation_number(func.role))?;
    push_blocks(out, places, first, func, leaf)
}

fn push_blocks(
    out: &mut Vec<Item>,
    places: &[GlobalPlace],
    first: u32,
    func: &Func,
    leaf: bool,
) -> Result<(), AllocError>
    requires func { IsFuncAmong places.now func.now }
    requires leaf { leaf ≡ is_leaf func.now }
    requires labels { first + length func.now.blocks < 2 ^ 32 }
    ensures { OnOk result (out.new.items ≡ out.old.items ++ blocks_code first (map (block_code places.now first func.now) func.now.blocks)) }
{
    for (number, block) in func.blocks.as_slice().iter().enumerate() {
        out.push(Item::Label(first + number as u32))?;
        push_block(out, places, first, func, leaf, block)?;
    }
    Ok(())
}

fn push_block(
    out: &mut Vec<Item>,
    places: &[GlobalPlace],
    first: u32,
    func: &Func,
    leaf: bool,
    block: &BlockIr,
) -> Result<(), AllocError>
    requires leaf { leaf ≡ is_leaf func.now }
    requires block { IsBlockAmong places.now func.now block.now }
    requires labels { first + length func.now.blocks < 2 ^ 32 }
    ensures { OnOk result (out.new.items ≡ out.old.items ++ block_code places.now first func.now block.now) }
{
    for instr in block.instrs.as_slice() {
        push_instruction(out, places, leaf, instr)?;
    }
    push_terminator(out, first, func, leaf, block.term)
}
