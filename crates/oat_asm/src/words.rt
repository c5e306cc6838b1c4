//! The words of items.

ghost use Rattle.std.specs.Prelude.{◌≡◌, [], ◌∷◌, ◌++◌, ◌^◌, ◌<◌, ◌≤◌, map, IfOk, OnOk};
ghost use Rattle.oat_shape.specs.{word_of, code_base};
ghost use Rattle.oat_asm.specs.Items.{
  words_needed,
  label_place,
  code_limit,
  IsBranch,
  UsedLabelsStandOnce,
  InstructionsAreInRange,
  BranchesAreInRange,
  AddressesHaveRegisters,
};
ghost use Rattle.oat_asm.specs.Layout.{branch, distance, puts, words_of_item, items_give};
ghost use Rattle.oat_asm.specs.Steps.{known_place, HasPlaces, HasWords};

use crate::branch_form::BranchForm;
use crate::item::Item;
use crate::label_places::{LabelPlaces, place_of};
use crate::passes::address;
use oat_a64::{Inst, encode};
use std::alloc::{AllocError, Global};

/// The words of the items.
pub(crate) fn code(
    alloc: Global,
    items: &[Item],
    base: u64,
    places: &LabelPlaces,
) -> Result<Vec<u32>, AllocError>
    requires labels { UsedLabelsStandOnce items.now }
    requires instructions { InstructionsAreInRange items.now }
    requires branches { BranchesAreInRange items.now }
    requires registers { AddressesHaveRegisters items.now }
    requires base { base ≡ code_base }
    requires small { words_needed items.now ≤ code_limit }
    requires places { HasPlaces items.now places.now }
    ensures { IfOk result (λ code. code.items ≡ items_give (words_of_item (label_place items.now) base) 0 items.now) }
{
    let mut code = Vec::new(alloc);
    let mut here = 0;
    for item in items {
        push_words(&mut code, item, base, here, places)?;
        here += item.word_count();
    }
    Ok(code)
}

fn push_words(
    code: &mut Vec<u32>,
    item: &Item,
    base: u64,
    here: u64,
    places: &LabelPlaces,
) -> Result<(), AllocError>
    requires base { base ≡ code_base }
    requires here { here ≤ code_limit }
    requires item { HasWords (known_place places.now) item.now }
    ensures { OnOk result (code.new.items ≡ code.old.items ++ words_of_item (known_place places.now) base here item.now) }
{
    match *item {
        Item::Inst(inst) => {
            code.push(encode(&inst))?;
            Ok(())
        }
        Item::BranchTo { form, label } => push_branch(code, form, here, place_of(places, label)),
        Item::AddressOf { register, label } => {
            push_address(code, register, address(base, place_of(places, label)))
        }
        Item::Label(_) | Item::Mark(_) | Item::Note(_) => Ok(()),
    }
}

/// The branch that leads from one place to another.
#[tactic(auto, using(crate::proofs::Ranges::branch_in_range))]
fn push_branch(code: &mut Vec<u32>, form: BranchForm, here: u64, to: u64) -> Result<(), AllocError>
    requires form { IsBranch form }
    requires here { here ≤ code_limit }
    requires to { to ≤ code_limit }
    ensures { OnOk result (code.new.items ≡ code.old.items ++ word_of (branch form (distance here to)) ∷ []) }
{
    let inst = form.over(distance(here, to));
    code.push(encode(&inst))?;
    Ok(())
}

/// The number of words from one place to another.
fn distance(from: u64, to: u64) -> i32
    requires from { from ≤ code_limit }
    requires to { to ≤ code_limit }
    ensures { result ≡ distance from to }
{
    to as i32 - from as i32
}

/// The two words that put an address into a register.
fn push_address(code: &mut Vec<u32>, register: u8, address: u64) -> Result<(), AllocError>
    requires register { register ≤ 30 }
    requires address { address < 2 ^ 32 }
    ensures { OnOk result (code.new.items ≡ code.old.items ++ map word_of (puts register address)) }
{
    let [low, high] = puts(register, address);
    code.push(encode(&low))?;
    code.push(encode(&high))?;
    Ok(())
}

/// The two moves that put a number of 32 bits into a register.
pub fn puts(register: u8, number: u64) -> [Inst; 2]
    requires number { number < 2 ^ 32 }
    ensures { result ≡ puts register number }
{
    let low = Inst::Movz {
        rd: register,
        hw: 0,
        imm: (number % 0x1_0000) as u16,
    };
    let high = Inst::Movk {
        rd: register,
        hw: 1,
        imm: (number / 0x1_0000) as u16,
    };
    [low, high]
}
