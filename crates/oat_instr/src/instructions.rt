//! The instructions that groups share.

ghost use Rattle.std.specs.Prelude.{◌≡◌, ◌++◌, ◌<◌, map, OnOk};
ghost use Rattle.oat_asm.specs.{global_address};
ghost use Rattle.oat_asm.specs.inst as inst;
ghost use Rattle.oat_asm.specs.declared.item.Item.TheVariants as item;
ghost use Rattle.oat_asm.specs.Layout.{puts};

use oat_asm::{Inst, Item, puts};
use oat_mem::GLOBAL_BASE;
use std::alloc::AllocError;

/// The move of a number of 16 bits into a register.
pub(crate) fn movz(register: u8, imm: u16) -> Item
    ensures { result ≡ item.Inst (inst.Movz register 0 imm) }
{
    Item::Inst(Inst::Movz {
        rd: register,
        hw: 0,
        imm,
    })
}

/// A supervisor call.
pub(crate) fn svc(imm: u16) -> Item
    ensures { result ≡ item.Inst (inst.Svc imm) }
{
    Item::Inst(Inst::Svc { imm })
}

/// The two moves that put the address of a word of global data into X11.
pub(crate) fn push_global_address(out: &mut Vec<Item>, index: u32) -> Result<(), AllocError>
    requires index { index < 65536 }
    ensures { OnOk result (out.new.items ≡ out.old.items ++ map item.Inst (puts 11 (global_address index))) }
{
    let [low, high] = puts(11, GLOBAL_BASE + 8 * u64::from(index));
    out.push(Item::Inst(low))?;
    out.push(Item::Inst(high))?;
    Ok(())
}
