//! Calls: 256 callers trap, and so does null.

ghost use Rattle.std.specs.Prelude.{◌≡◌, [], ◌∷◌, ◌++◌, ◌<◌, ◌≤◌, length, pos, All, OnOk};
ghost use Rattle.oat_globals.specs.{argument_loads, behind_call, depth_tested};
ghost use Rattle.oat_globals.specs.inst as inst;
ghost use Rattle.oat_asm.specs.declared.item.Item.TheVariants as item;
ghost use Rattle.oat_gen.specs.Marked.{marked_call, marked_icall};
ghost use Rattle.oat_gen.specs.Steps.{AreInSlots};

use crate::items::{from_slot, into_slot, push_all, push_check, push_inst};
use oat_asm::{Inst, Item, Mark};
use std::alloc::AllocError;

pub(crate) fn push_call(
    out: &mut Vec<Item>,
    args: &[u32],
    callee: u32,
    to: u32,
) -> Result<(), AllocError>
    requires args { AreInSlots args.now }
    requires to { to < 255 }
    ensures { OnOk result (out.new.items ≡ out.old.items ++ marked_call args.now callee to) }
{
    push_depth_test(out)?;
    push_argument_loads(out, args)?;
    out.push(Item::Mark(Mark::Call { to: callee }))?;
    push_behind_call(out, to)
}

/// A call of the function that a local refers to.
pub(crate) fn push_icall(
    out: &mut Vec<Item>,
    args: &[u32],
    from: u32,
    to: u32,
) -> Result<(), AllocError>
    requires args { AreInSlots args.now }
    requires from { from < 255 }
    requires to { to < 255 }
    ensures { OnOk result (out.new.items ≡ out.old.items ++ marked_icall args.now from to) }
{
    push_all(out, &[from_slot(9, from)])?;
    push_check(out, Inst::Cbnz { rt: 9, offset: 2 }, 3)?;
    push_depth_test(out)?;
    push_argument_loads(out, args)?;
    let params = args.len() as u8;
    out.push(Item::Mark(Mark::ICall { params }))?;
    push_behind_call(out, to)
}

/// The test of X28, which counts the callers, and its count.
fn push_depth_test(out: &mut Vec<Item>) -> Result<(), AllocError>
    ensures { OnOk result (out.new.items ≡ out.old.items ++ depth_tested [] []) }
{
    let test = Inst::SubsImm {
        rd: 31,
        rn: 28,
        imm: 256,
    };
    let count = Inst::AddImm {
        rd: 28,
        rn: 28,
        imm: 1,
    };
    push_inst(out, test)?;
    push_check(out, Inst::BCond { cond: 3, offset: 2 }, 4)?;
    push_inst(out, count)
}

/// The arguments go into the registers from X0 on.
fn push_argument_loads(out: &mut Vec<Item>, args: &[u32]) -> Result<(), AllocError>
    requires { AreInSlots args.now }
    ensures { OnOk result (out.new.items ≡ out.old.items ++ argument_loads 0 args.now) }
{
    for (register, local) in args.iter().enumerate() {
        out.push(from_slot(register as u8, *local))?;
    }
    Ok(())
}

/// What the caller does where the callee returns.
fn push_behind_call(out: &mut Vec<Item>, to: u32) -> Result<(), AllocError>
    requires { to < 255 }
    ensures { OnOk result (out.new.items ≡ out.old.items ++ behind_call to) }
{
    let count = Inst::SubImm {
        rd: 28,
        rn: 28,
        imm: 1,
    };
    push_all(out, &[Item::Inst(count), into_slot(0, to)])
}
