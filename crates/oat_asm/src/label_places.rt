//! Where the labels stand.

ghost use Rattle.std.specs.Prelude.{◌≡◌, ◌≤◌, IfOk, OnOk};
ghost use Rattle.oat_asm.specs.Items.{words_needed, code_limit};
ghost use Rattle.oat_asm.specs.Steps.{known_place, HasPlaces, SetsLabel};

use crate::item::Item;
use std::alloc::{AllocError, Global};
use std::collections::BTreeMap;

/// The place of each label: how many words stand before it.
pub(crate) type LabelPlaces = BTreeMap<u32, u64>;

/// The place of a label, or 0 where it stands nowhere.
pub(crate) fn place_of(places: &LabelPlaces, label: u32) -> u64
    ensures { result ≡ known_place places.now label }
{
    places.get(&label).copied().unwrap_or(0)
}

pub(crate) fn label_places(alloc: Global, items: &[Item]) -> Result<LabelPlaces, AllocError>
    requires small { words_needed items.now ≤ code_limit }
    ensures { IfOk result (λ places. HasPlaces items.now places) }
{
    let mut places = BTreeMap::new(alloc);
    let mut here = 0;
    for item in items {
        set_label(&mut places, item, here)?;
        here += item.word_count();
    }
    Ok(places)
}

fn set_label(places: &mut LabelPlaces, item: &Item, here: u64) -> Result<(), AllocError>
    ensures { OnOk result (SetsLabel places.old places.new item.now here) }
{
    if let Item::Label(label) = *item {
        places.insert(label, here)?;
    }
    Ok(())
}
