ghost use Rattle.std.specs.Prelude.{◌≡◌, ℕ, ◌<◌, ◌≤◌, ◌↔◌, Err, IfOk, OnOk};
ghost use Rattle.oat_shape.specs.{code_base};
ghost use Rattle.oat_asm.specs.declared.assembled.AsmFault.TheVariants.{CodeTooLarge};
ghost use Rattle.oat_asm.specs.Items.{
  words_needed,
  code_limit,
  UsedLabelsStandOnce,
  NoMarkIsLeft,
  InstructionsAreInRange,
  BranchesAreInRange,
  AddressesHaveRegisters,
};
ghost use Rattle.oat_asm.specs.Layout.{layout};

use crate::assembled::{AsmFault, Assembled};
use crate::item::Items;
use crate::label_places::label_places;
use crate::passes::{labels, notes, words_needed};
use crate::words::code;
use oat_list::Listed;
use std::alloc::Global;

/// The most words that code has.
const CODE_LIMIT: u64 = 131_072;

/// The words of the items from the base on, and where the labels and notes stand.
///
/// It takes time about linear in the number of items. Code that is too large
/// is refused before any memory is taken.
pub fn assemble(alloc: Global, items: &Items, base: u64) -> Result<Assembled, AsmFault>
    requires labels { UsedLabelsStandOnce items.now }
    requires marks { NoMarkIsLeft items.now }
    requires instructions { InstructionsAreInRange items.now }
    requires branches { BranchesAreInRange items.now }
    requires registers { AddressesHaveRegisters items.now }
    requires base { base ≡ code_base }
    ensures ok { IfOk result (λ assembled. assembled ≡ layout items.now base) }
    ensures fits { OnOk result (words_needed items.now ≤ code_limit) }
    ensures too_large { (words : ℕ) → (result ≡ Err (CodeTooLarge words)) ↔ ((words ≡ words_needed items.now) × (code_limit < words)) }
{
    let items = items.as_slice();
    let needed = words_needed(items);
    if needed > CODE_LIMIT {
        return Err(AsmFault::CodeTooLarge(needed));
    }
    let places = label_places(alloc, items)?;
    let code = code(alloc, items, base, &places)?;
    let labels = labels(alloc, items, base)?;
    let notes = notes(alloc, items, base)?;
    Ok(Assembled {
        code: Listed::from_vec(code),
        labels: Listed::from_vec(labels),
        notes: Listed::from_vec(notes),
    })
}
