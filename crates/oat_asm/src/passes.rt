//! The passes over the items that need no label's place.

ghost use Rattle.std.specs.Prelude.{◌≡◌, ◌++◌, ◌^◌, ◌<◌, ◌≤◌, IfOk, OnOk};
ghost use Rattle.oat_shape.specs.{code_base};
ghost use Rattle.oat_asm.specs.Items.{address, words_needed, code_limit};
ghost use Rattle.oat_asm.specs.Layout.{labels_of_item, notes_of_item, items_give};

use crate::assembled::{LabelAt, NoteAt};
use crate::item::Item;
use std::alloc::{AllocError, Global};

/// How many words the items need.
pub(crate) fn words_needed(items: &[Item]) -> u64
    ensures { result ≡ words_needed items.now }
{
    let mut words = 0;
    for item in items {
        words += item.word_count();
    }
    words
}

/// The address of a place, which is a number of words behind the base.
pub(crate) fn address(base: u64, words: u64) -> u64
    requires small { words ≤ code_limit }
    requires base { base ≡ code_base }
    ensures { result ≡ address base words }
{
    base + 4 * words
}

/// The labels among the items, each at its address.
pub(crate) fn labels(alloc: Global, items: &[Item], base: u64) -> Result<Vec<LabelAt>, AllocError>
    requires small { words_needed items.now ≤ code_limit }
    requires base { base ≡ code_base }
    ensures { IfOk result (λ labels. labels.items ≡ items_give (labels_of_item base) 0 items.now) }
{
    let mut labels = Vec::new(alloc);
    let mut here = 0;
    for item in items {
        push_label(&mut labels, item, base, here)?;
        here += item.word_count();
    }
    Ok(labels)
}

fn push_label(
    labels: &mut Vec<LabelAt>,
    item: &Item,
    base: u64,
    here: u64,
) -> Result<(), AllocError>
    requires small { here ≤ code_limit }
    requires base { base ≡ code_base }
    ensures { OnOk result (labels.new.items ≡ labels.old.items ++ labels_of_item base here item.now) }
{
    if let Item::Label(label) = *item {
        let at = address(base, here);
        labels.push(LabelAt { label, at })?;
    }
    Ok(())
}

/// The notes among the items, each at its address.
pub(crate) fn notes(alloc: Global, items: &[Item], base: u64) -> Result<Vec<NoteAt>, AllocError>
    requires small { words_needed items.now ≤ code_limit }
    requires base { base ≡ code_base }
    ensures { IfOk result (λ notes. notes.items ≡ items_give (notes_of_item base) 0 items.now) }
{
    let mut notes = Vec::new(alloc);
    let mut here = 0;
    for item in items {
        push_note(&mut notes, item, base, here)?;
        here += item.word_count();
    }
    Ok(notes)
}

fn push_note(notes: &mut Vec<NoteAt>, item: &Item, base: u64, here: u64) -> Result<(), AllocError>
    requires small { here ≤ code_limit }
    requires base { base ≡ code_base }
    ensures { OnOk result (notes.new.items ≡ notes.old.items ++ notes_of_item base here item.now) }
{
    if let Item::Note(note) = *item {
        let at = address(base, here);
        notes.push(NoteAt { note, at })?;
    }
    Ok(())
}
