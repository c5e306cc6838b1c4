//! The groups of marks' rows.

ghost use Rattle.std.specs.Prelude.{◌≡◌, [], ◌∷◌, ◌++◌, OnOk};
ghost use Rattle.oat_asm.specs.inst as inst;
ghost use Rattle.oat_asm.specs.declared.mark.Mark.TheVariants as mark;
ghost use Rattle.oat_asm.specs.declared.item.Item.TheVariants as item;
ghost use Rattle.oat_asm.specs.Expansion.{group};
ghost use Rattle.oat_asm.specs.ExpansionLaws.{IsMark};

use crate::cells::{push_define_group, push_use_group};
use crate::elements::{push_define_at_group, push_use_at_group};
use crate::instructions::{movz, svc};
use oat_asm::{BranchForm, Inst, Item, Mark};
use std::alloc::AllocError;

/// The group of a mark's row.
pub(crate) fn push_group(out: &mut Vec<Item>, row: Mark) -> Result<(), AllocError>
    requires row { IsMark row }
    ensures { OnOk result (out.new.items ≡ out.old.items ++ group row) }
{
    match row {
        Mark::Jump { to } => push_branch_to(out, BranchForm::B, to),
        Mark::Branch { taken, other } => push_branch_group(out, taken, other),
        Mark::Call { to } => push_branch_to(out, BranchForm::Bl, to),
        Mark::ICall { params } => push_indirect_call_group(out, params),
        Mark::Ret => push_return_group(out),
        Mark::Begin { op } => push_operation_group(out, op, 1),
        Mark::End { op } => push_operation_group(out, op, 2),
        Mark::UseCell { cell, index } => push_use_group(out, cell, index),
        Mark::DefCell { cell, index } => push_define_group(out, cell, index),
        Mark::UseAt { cell, len, index } => push_use_at_group(out, cell, len, index),
        Mark::DefAt { cell, len, index } => push_define_at_group(out, cell, len, index),
    }
}

fn push_branch_to(out: &mut Vec<Item>, form: BranchForm, label: u32) -> Result<(), AllocError>
    ensures { OnOk result (out.new.items ≡ out.old.items ++ item.BranchTo form label ∷ []) }
{
    out.push(Item::BranchTo { form, label })?;
    Ok(())
}

fn push_branch_group(out: &mut Vec<Item>, taken: u32, other: u32) -> Result<(), AllocError>
    ensures { OnOk result (out.new.items ≡ out.old.items ++ group (mark.Branch taken other)) }
{
    out.push(svc(3))?;
    push_branch_to(out, BranchForm::Cbnz(9), taken)?;
    push_branch_to(out, BranchForm::B, other)
}

fn push_indirect_call_group(out: &mut Vec<Item>, params: u8) -> Result<(), AllocError>
    ensures { OnOk result (out.new.items ≡ out.old.items ++ group (mark.ICall params)) }
{
    out.push(svc(4))?;
    out.push(Item::Inst(Inst::Blr { rn: 9 }))?;
    Ok(())
}

fn push_return_group(out: &mut Vec<Item>) -> Result<(), AllocError>
    ensures { OnOk result (out.new.items ≡ out.old.items ++ group mark.Ret) }
{
    out.push(svc(5))?;
    out.push(Item::Inst(Inst::Ret { rn: 30 }))?;
    Ok(())
}

/// The group of a Begin or an End, by the number of its supervisor call.
fn push_operation_group(out: &mut Vec<Item>, op: u16, call: u16) -> Result<(), AllocError>
    ensures { OnOk result (out.new.items ≡ out.old.items ++ item.Inst (inst.Movz 9 0 op) ∷ item.Inst (inst.Svc call) ∷ []) }
{
    out.push(movz(9, op))?;
    out.push(svc(call))?;
    Ok(())
}
