//! Groups of uses and defines of elements of critical arrays. X12 has the element's number.

ghost use Rattle.std.specs.Prelude.{◌≡◌, [], ◌∷◌, ◌++◌, ◌<◌, OnOk};
ghost use Rattle.oat_asm.specs.inst as inst;
ghost use Rattle.oat_asm.specs.declared.mark.Mark.TheVariants as mark;
ghost use Rattle.oat_asm.specs.declared.item.Item.TheVariants as item;
ghost use Rattle.oat_asm.specs.Expansion.{element_test, group};

use crate::instructions::{movz, push_global_address, svc};
use oat_asm::{Inst, Item};
use std::alloc::AllocError;

pub(crate) fn push_use_at_group(
    out: &mut Vec<Item>,
    cell: u16,
    len: u16,
    index: u32,
) -> Result<(), AllocError>
    requires index { index < 65536 }
    ensures { OnOk result (out.new.items ≡ out.old.items ++ group (mark.UseAt cell len index)) }
{
    let load = Inst::LdrReg {
        rt: 10,
        rn: 11,
        rm: 12,
    };
    push_element_test(out, len)?;
    push_global_address(out, index)?;
    out.push(Item::Inst(load))?;
    push_cell_of_element(out, cell)?;
    out.push(svc(7))?;
    Ok(())
}

pub(crate) fn push_define_at_group(
    out: &mut Vec<Item>,
    cell: u16,
    len: u16,
    index: u32,
) -> Result<(), AllocError>
    requires index { index < 65536 }
    ensures { OnOk result (out.new.items ≡ out.old.items ++ group (mark.DefAt cell len index)) }
{
    let store = Inst::StrReg {
        rt: 10,
        rn: 11,
        rm: 12,
    };
    push_element_test(out, len)?;
    push_global_address(out, index)?;
    push_cell_of_element(out, cell)?;
    out.push(Item::Inst(store))?;
    out.push(svc(6))?;
    Ok(())
}

/// The test of the element's number against the array's length, and the trap that it skips.
fn push_element_test(out: &mut Vec<Item>, len: u16) -> Result<(), AllocError>
    ensures { OnOk result (out.new.items ≡ out.old.items ++ element_test len) }
{
    let test = Inst::SubsReg {
        rd: 31,
        rn: 12,
        rm: 11,
    };
    let skip = Inst::BCond { cond: 3, offset: 2 };
    out.push(movz(11, len))?;
    out.push(Item::Inst(test))?;
    out.push(Item::Inst(skip))?;
    out.push(Item::Inst(Inst::Brk { imm: 2 }))?;
    Ok(())
}

/// The two instructions that put the number of the element's cell into X9.
fn push_cell_of_element(out: &mut Vec<Item>, cell: u16) -> Result<(), AllocError>
    ensures { OnOk result (out.new.items ≡ out.old.items ++ item.Inst (inst.Movz 9 0 cell) ∷ item.Inst (inst.AddReg 9 9 12 0) ∷ []) }
{
    let sum = Inst::AddReg {
        rd: 9,
        rn: 9,
        rm: 12,
        amount: 0,
    };
    out.push(movz(9, cell))?;
    out.push(Item::Inst(sum))?;
    Ok(())
}
