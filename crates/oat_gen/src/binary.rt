//! Operations on two numbers. An operand in a slot is loaded into X9 or X10, and X9 has a result that goes into a slot; in
//! a leaf the registers of the locals are used as they are.

ghost use Rattle.std.specs.Prelude.{◌≡◌, [], ◌∷◌, ◌++◌, ◌<◌, OnOk};
ghost use Rattle.oat_globals.specs.{home_of};
ghost use Rattle.oat_globals.specs.inst as inst;
ghost use Rattle.oat_asm.specs.declared.item.Item.TheVariants as item;
ghost use Rattle.oat_locals.specs.Code.{binary_code, operation_code, compared_by, divisor_tested, one_inst};

use crate::items::{operand_in, push_all, push_check, push_inst, push_operand, push_result};
use oat_asm::{Inst, Item};
use oat_ir::BinOp;
use std::alloc::AllocError;

pub(crate) fn push_binary(
    out: &mut Vec<Item>,
    leaf: bool,
    op: BinOp,
    x: u32,
    y: u32,
    z: u32,
) -> Result<(), AllocError>
    requires x { x < 255 }
    requires y { y < 255 }
    requires z { z < 255 }
    ensures { OnOk result (out.new.items ≡ out.old.items ++ binary_code op (home_of leaf x) (home_of leaf y) (home_of leaf z)) }
{
    let (rd, rn, rm) = (
        operand_in(9, leaf, x),
        operand_in(9, leaf, y),
        operand_in(10, leaf, z),
    );
    push_operand(out, 9, leaf, y)?;
    push_operand(out, 10, leaf, z)?;
    push_operation(out, op, rd, rn, rm)?;
    push_result(out, 9, leaf, x)
}

fn push_operation(out: &mut Vec<Item>, op: BinOp, rd: u8, rn: u8, rm: u8) -> Result<(), AllocError>
    ensures { OnOk result (out.new.items ≡ out.old.items ++ operation_code op rd rn rm) }
{
    let amount = 0;
    match op {
        BinOp::Add => push_inst(out, Inst::AddReg { rd, rn, rm, amount }),
        BinOp::Sub => push_inst(out, Inst::SubReg { rd, rn, rm }),
        BinOp::Mul => push_inst(out, Inst::Madd { rd, rn, rm, ra: 31 }),
        BinOp::And => push_inst(out, Inst::AndReg { rd, rn, rm }),
        BinOp::Or => push_inst(out, Inst::OrrReg { rd, rn, rm }),
        BinOp::Xor => push_inst(out, Inst::EorReg { rd, rn, rm }),
        BinOp::Shl => push_inst(out, Inst::Lslv { rd, rn, rm }),
        BinOp::Shr => push_inst(out, Inst::Lsrv { rd, rn, rm }),
        BinOp::Sar => push_inst(out, Inst::Asrv { rd, rn, rm }),
        BinOp::Eq => push_comparison(out, 1, rd, rn, rm),
        BinOp::Ne => push_comparison(out, 0, rd, rn, rm),
        BinOp::Lt => push_comparison(out, 10, rd, rn, rm),
        BinOp::Le => push_comparison(out, 12, rd, rn, rm),
        BinOp::Ltu => push_comparison(out, 2, rd, rn, rm),
        BinOp::Leu => push_comparison(out, 8, rd, rn, rm),
        BinOp::Div => push_quotient(out, rm, Inst::Sdiv { rd, rn, rm }),
        BinOp::Divu => push_quotient(out, rm, Inst::Udiv { rd, rn, rm }),
        BinOp::Rem => push_remainder(out, rd, rn, rm, Inst::Sdiv { rd: 11, rn, rm }),
        BinOp::Remu => push_remainder(out, rd, rn, rm, Inst::Udiv { rd: 11, rn, rm }),
    }
}

/// 1 where a condition holds of two registers, else 0. It is given by the condition that is its opposite.
fn push_comparison(out: &mut Vec<Item>, cond: u8, rd: u8, rn: u8, rm: u8) -> Result<(), AllocError>
    ensures { OnOk result (out.new.items ≡ out.old.items ++ compared_by cond rd rn rm) }
{
    let flags = Inst::SubsReg { rd: 31, rn, rm };
    let bit = Inst::Csinc {
        rd,
        rn: 31,
        rm: 31,
        cond,
    };
    push_all(out, &[Item::Inst(flags), Item::Inst(bit)])
}

fn push_quotient(out: &mut Vec<Item>, divisor: u8, quotient: Inst) -> Result<(), AllocError>
    ensures { OnOk result (out.new.items ≡ out.old.items ++ divisor_tested divisor (one_inst quotient)) }
{
    push_divisor_test(out, divisor)?;
    push_inst(out, quotient)
}

/// What is left of a register, once X11 has the quotient.
fn push_remainder(
    out: &mut Vec<Item>,
    rd: u8,
    rn: u8,
    rm: u8,
    quotient: Inst,
) -> Result<(), AllocError>
    ensures { OnOk result (out.new.items ≡ out.old.items ++ divisor_tested rm (item.Inst quotient ∷ one_inst (inst.Msub rd 11 rm rn))) }
{
    let rest = Inst::Msub {
        rd,
        rn: 11,
        rm,
        ra: rn,
    };
    push_divisor_test(out, rm)?;
    push_all(out, &[Item::Inst(quotient), Item::Inst(rest)])
}

/// A divisor of 0 traps.
fn push_divisor_test(out: &mut Vec<Item>, divisor: u8) -> Result<(), AllocError>
    ensures { OnOk result (out.new.items ≡ out.old.items ++ divisor_tested divisor []) }
{
    let some = Inst::Cbnz {
        rt: divisor,
        offset: 2,
    };
    push_check(out, some, 1)
}
