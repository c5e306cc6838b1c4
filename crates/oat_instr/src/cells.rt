//! Groups of uses and defines of cells.

ghost use Rattle.std.specs.Prelude.{◌≡◌, ◌++◌, ◌<◌, OnOk};
ghost use Rattle.oat_asm.specs.declared.mark.Mark.TheVariants as mark;
ghost use Rattle.oat_asm.specs.Expansion.{group};

use crate::instructions::{movz, push_global_address, svc};
use oat_asm::{Inst, Item};
use std::alloc::AllocError;

pub(crate) fn push_use_group(out: &mut Vec<Item>, cell: u16, index: u32) -> Result<(), AllocError>
    requires index { index < 65536 }
    ensures { OnOk result (out.new.items ≡ out.old.items ++ group (mark.UseCell cell index)) }
{
    let load = Inst::Ldr {
        rt: 10,
        rn: 11,
        imm: 0,
    };
    push_global_address(out, index)?;
    out.push(Item::Inst(load))?;
    out.push(movz(9, cell))?;
    out.push(svc(7))?;
    Ok(())
}

pub(crate) fn push_define_group(
    out: &mut Vec<Item>,
    cell: u16,
    index: u32,
) -> Result<(), AllocError>
    requires index { index < 65536 }
    ensures { OnOk result (out.new.items ≡ out.old.items ++ group (mark.DefCell cell index)) }
{
    let store = Inst::Str {
        rt: 10,
        rn: 11,
        imm: 0,
    };
    push_global_address(out, index)?;
    out.push(movz(9, cell))?;
    out.push(Item::Inst(store))?;
    out.push(svc(6))?;
    Ok(())
}
