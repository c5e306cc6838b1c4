//! Items that lines share. X31 is the stack pointer where an address is wanted, and zero elsewhere.

ghost use Rattle.std.specs.Prelude.{◌≡◌, ◌+◌, ◌&&◌, nat_lt, pos, [], ◌∷◌, ◌++◌, ◌^◌, ◌<◌, ◌≤◌, OnOk, map};
ghost use Rattle.oat_globals.specs.{puts, home_of, slot, home_load, home_store};
ghost use Rattle.oat_globals.specs.inst as inst;
ghost use Rattle.oat_asm.specs.declared.item.Item.TheVariants as item;
ghost use Rattle.oat_asm.specs.declared.note.Note.TheVariants as note;
ghost use Rattle.oat_globals.specs.Code.{number_code};
ghost use Rattle.oat_locals.specs.Code.{operand_in, operand_load, operand_store};

use oat_asm::{Inst, Item, Note, puts};
use std::alloc::AllocError;

/// All of these items, behind the others.
pub(crate) fn push_all(out: &mut Vec<Item>, items: &[Item]) -> Result<(), AllocError>
    ensures { OnOk result (out.new.items ≡ out.old.items ++ items.now) }
{
    for item in items {
        out.push(*item)?;
    }
    Ok(())
}

pub(crate) fn push_inst(out: &mut Vec<Item>, inst: Inst) -> Result<(), AllocError>
    ensures { OnOk result (out.new.items ≡ out.old.items ++ item.Inst inst ∷ []) }
{
    out.push(Item::Inst(inst))?;
    Ok(())
}

/// The number of a local's slot in its frame. The first slot has the return address.
fn slot_of(local: u32) -> u16
    requires { local < 255 }
    ensures { result ≡ local + 1 }
{
    local as u16 + 1
}

/// The load of a local from its slot into a register.
pub(crate) fn from_slot(register: u8, local: u32) -> Item
    requires { local < 255 }
    ensures { result ≡ home_load register (slot (local + 1)) }
{
    Item::Inst(Inst::Ldr {
        rt: register,
        rn: 31,
        imm: slot_of(local),
    })
}

/// The store of a register into a local's slot.
pub(crate) fn into_slot(register: u8, local: u32) -> Item
    requires { local < 255 }
    ensures { result ≡ home_store register (slot (local + 1)) }
{
    Item::Inst(Inst::Str {
        rt: register,
        rn: 31,
        imm: slot_of(local),
    })
}

/// Whether a local stands in a register, as the first eight of a leaf do.
fn stands_in_register(leaf: bool, local: u32) -> bool
    ensures { result ≡ (leaf && nat_lt local 8) }
{
    leaf && local < 8
}

/// The register of one of the first eight locals of a leaf.
fn register_of(local: u32) -> u8
    requires { local < 8 }
    ensures { result ≡ 19 + local }
{
    19 + local as u8
}

fn move_between(rd: u8, rm: u8) -> Item
    ensures { result ≡ item.Inst (inst.OrrReg rd 31 rm) }
{
    Item::Inst(Inst::OrrReg { rd, rn: 31, rm })
}

/// A local of a function goes into a register, from wherever it stands.
pub(crate) fn from_home(register: u8, leaf: bool, local: u32) -> Item
    requires { local < 255 }
    ensures { result ≡ home_load register (home_of leaf local) }
{
    if stands_in_register(leaf, local) {
        move_between(register, register_of(local))
    } else {
        from_slot(register, local)
    }
}

/// A register goes into a local of a function, wherever that stands.
pub(crate) fn into_home(register: u8, leaf: bool, local: u32) -> Item
    requires { local < 255 }
    ensures { result ≡ home_store register (home_of leaf local) }
{
    if stands_in_register(leaf, local) {
        move_between(register_of(local), register)
    } else {
        into_slot(register, local)
    }
}

/// The register in which an operand is found: a local's own, or this one.
pub(crate) fn operand_in(register: u8, leaf: bool, local: u32) -> u8
    ensures { result ≡ operand_in register (home_of leaf local) }
{
    if stands_in_register(leaf, local) {
        register_of(local)
    } else {
        register
    }
}

/// A local that stands in no register is loaded into this one.
pub(crate) fn push_operand(
    out: &mut Vec<Item>,
    register: u8,
    leaf: bool,
    local: u32,
) -> Result<(), AllocError>
    requires { local < 255 }
    ensures { OnOk result (out.new.items ≡ out.old.items ++ operand_load register (home_of leaf local)) }
{
    if !stands_in_register(leaf, local) {
        out.push(from_slot(register, local))?;
    }
    Ok(())
}

/// And the result is stored from this one.
pub(crate) fn push_result(
    out: &mut Vec<Item>,
    register: u8,
    leaf: bool,
    local: u32,
) -> Result<(), AllocError>
    requires { local < 255 }
    ensures { OnOk result (out.new.items ≡ out.old.items ++ operand_store register (home_of leaf local)) }
{
    if !stands_in_register(leaf, local) {
        out.push(into_slot(register, local))?;
    }
    Ok(())
}

pub(crate) fn svc(imm: u16) -> Item
    ensures { result ≡ item.Inst (inst.Svc imm) }
{
    Item::Inst(Inst::Svc { imm })
}

/// A check: the trap of this number, unless the instruction before it skips it.
pub(crate) fn push_check(out: &mut Vec<Item>, skip: Inst, trap: u16) -> Result<(), AllocError>
    ensures { OnOk result (out.new.items ≡ out.old.items ++ item.Note note.Check ∷ item.Inst skip ∷ item.Inst (inst.Brk trap) ∷ []) }
{
    let trap = Inst::Brk { imm: trap };
    push_all(
        out,
        &[Item::Note(Note::Check), Item::Inst(skip), Item::Inst(trap)],
    )
}

/// The two moves of a number into X11.
pub(crate) fn push_number(out: &mut Vec<Item>, number: u64) -> Result<(), AllocError>
    requires { number < 2 ^ 32 }
    ensures { OnOk result (out.new.items ≡ out.old.items ++ number_code number) }
{
    let [low, high] = puts(11, number);
    push_all(out, &[Item::Inst(low), Item::Inst(high)])
}
