//! Constants, copies, inputs and outputs.

ghost use Rattle.std.specs.Prelude.{◌≡◌, ◌++◌, ◌<◌, OnOk};
ghost use Rattle.oat_globals.specs.{home_of};
ghost use Rattle.oat_globals.specs.inst as inst;
ghost use Rattle.oat_asm.specs.declared.item.Item.TheVariants as item;
ghost use Rattle.oat_locals.specs.Code.{const_code, copy_code, input_code, output_code};

use crate::items::{from_home, into_home, push_all, svc};
use oat_asm::{Inst, Item};
use std::alloc::AllocError;

pub(crate) fn push_const(
    out: &mut Vec<Item>,
    leaf: bool,
    x: u32,
    value: i64,
) -> Result<(), AllocError>
    requires { x < 255 }
    ensures { OnOk result (out.new.items ≡ out.old.items ++ const_code (home_of leaf x) value) }
{
    let number = value.cast_unsigned();
    let first = Inst::Movz {
        rd: 9,
        hw: 0,
        imm: (number % 0x1_0000) as u16,
    };
    let second = movk(1, (number / 0x1_0000 % 0x1_0000) as u16);
    let third = movk(2, (number / 0x1_0000_0000 % 0x1_0000) as u16);
    let fourth = movk(3, (number / 0x1_0000_0000_0000) as u16);
    push_all(
        out,
        &[
            Item::Inst(first),
            second,
            third,
            fourth,
            into_home(9, leaf, x),
        ],
    )
}

/// The move of 16 bits into a quarter of X9.
fn movk(hw: u8, imm: u16) -> Item
    ensures { result ≡ item.Inst (inst.Movk 9 hw imm) }
{
    Item::Inst(Inst::Movk { rd: 9, hw, imm })
}

pub(crate) fn push_copy(out: &mut Vec<Item>, leaf: bool, x: u32, y: u32) -> Result<(), AllocError>
    requires x { x < 255 }
    requires y { y < 255 }
    ensures { OnOk result (out.new.items ≡ out.old.items ++ copy_code (home_of leaf x) (home_of leaf y)) }
{
    push_all(out, &[from_home(9, leaf, y), into_home(9, leaf, x)])
}

pub(crate) fn push_input(out: &mut Vec<Item>, leaf: bool, x: u32) -> Result<(), AllocError>
    requires { x < 255 }
    ensures { OnOk result (out.new.items ≡ out.old.items ++ input_code (home_of leaf x)) }
{
    push_all(out, &[svc(8), into_home(0, leaf, x)])
}

pub(crate) fn push_output(out: &mut Vec<Item>, leaf: bool, x: u32) -> Result<(), AllocError>
    requires { x < 255 }
    ensures { OnOk result (out.new.items ≡ out.old.items ++ output_code (home_of leaf x)) }
{
    push_all(out, &[from_home(0, leaf, x), svc(9)])
}
