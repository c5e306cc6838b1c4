//! The start of a function and its return. Slot 0 of a frame has the return address.

ghost use Rattle.std.specs.Prelude.{◌≡◌, [], ◌∷◌, ◌++◌, ◌+◌, ◌<◌, ◌≤◌, nat_lt, if◌then◌else◌, OnOk};
ghost use Rattle.oat_globals.specs.{operation_number, local_stores, frame_size, home_of};
ghost use Rattle.oat_gen.specs.Marked.{begin_mark, end_mark, marked_return, marked_start};

use crate::items::{from_home, into_home, push_all};
use oat_asm::{Inst, Item, Mark};
use oat_ir::Role;
use std::alloc::AllocError;

/// The number of the operation that a function is, if it is one.
pub(crate) fn operation_number(role: Role) -> Option<u16>
    ensures { result ≡ operation_number role }
{
    match role {
        Role::Operation(op) => Some(op),
        Role::Plain | Role::Main => None,
    }
}

/// The bytes of a frame, a multiple of 16.
fn frame_size(locals: u32) -> u16
    requires { locals ≤ 255 }
    ensures { result ≡ frame_size locals }
{
    16 * ((locals as u16 + 2) / 2)
}

/// The start of a function; an operation begins behind its prologue.
pub(crate) fn push_start(
    out: &mut Vec<Item>,
    leaf: bool,
    params: u8,
    locals: u32,
    op: Option<u16>,
) -> Result<(), AllocError>
    requires params { params ≤ 4 }
    requires locals { locals ≤ 255 }
    ensures { OnOk result (out.new.items ≡ out.old.items ++ marked_start leaf params locals op) }
{
    let lay = Inst::SubImm {
        rd: 31,
        rn: 31,
        imm: frame_size(locals),
    };
    let save = Inst::Str {
        rt: 30,
        rn: 31,
        imm: 0,
    };
    push_all(out, &[Item::Inst(lay), Item::Inst(save)])?;
    push_local_stores(out, leaf, params, locals)?;
    push_begin(out, op)
}

/// Parameters are stored, and all other locals cleared.
fn push_local_stores(
    out: &mut Vec<Item>,
    leaf: bool,
    params: u8,
    locals: u32,
) -> Result<(), AllocError>
    requires params { params ≤ 4 }
    requires locals { locals ≤ 255 }
    ensures { OnOk result (out.new.items ≡ out.old.items ++ local_stores leaf params 0 locals) }
{
    for local in 0..locals {
        out.push(into_home(start_register(params, local), leaf, local))?;
    }
    Ok(())
}

/// The register that has a local at the start: a parameter's own, or the one that reads as zero.
fn start_register(params: u8, local: u32) -> u8
    ensures { result ≡ (if nat_lt local params then local else 31) }
{
    if local < u32::from(params) {
        local as u8
    } else {
        31
    }
}

fn push_begin(out: &mut Vec<Item>, op: Option<u16>) -> Result<(), AllocError>
    ensures { OnOk result (out.new.items ≡ out.old.items ++ begin_mark op) }
{
    if let Some(op) = op {
        out.push(Item::Mark(Mark::Begin { op }))?;
    }
    Ok(())
}

fn push_end(out: &mut Vec<Item>, op: Option<u16>) -> Result<(), AllocError>
    ensures { OnOk result (out.new.items ≡ out.old.items ++ end_mark op) }
{
    if let Some(op) = op {
        out.push(Item::Mark(Mark::End { op }))?;
    }
    Ok(())
}

/// The return from a function with a local; an operation ends before it.
pub(crate) fn push_return(
    out: &mut Vec<Item>,
    locals: u32,
    leaf: bool,
    from: u32,
    op: Option<u16>,
) -> Result<(), AllocError>
    requires locals { locals ≤ 255 }
    requires from { from < 255 }
    ensures { OnOk result (out.new.items ≡ out.old.items ++ marked_return locals (home_of leaf from) op) }
{
    let restore = Inst::Ldr {
        rt: 30,
        rn: 31,
        imm: 0,
    };
    let free = Inst::AddImm {
        rd: 31,
        rn: 31,
        imm: frame_size(locals),
    };
    push_end(out, op)?;
    let (restore, free) = (Item::Inst(restore), Item::Inst(free));
    push_all(
        out,
        &[
            from_home(0, leaf, from),
            restore,
            free,
            Item::Mark(Mark::Ret),
        ],
    )
}
