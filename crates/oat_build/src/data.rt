//! Global data: the words that aren't zero, and the cells.
ghost use Rattle.std.specs.Prelude.{◌≡◌, ◌++◌, ◌≤◌, ◌<◌, ◌+◌, IfOk, OnOk, map};
ghost use Rattle.std.specs.List.{sum_by, range_with_len};
ghost use Rattle.oat_match.specs.{cell_words, size_in_cells, size_in_words, start_of, word_at_start, words_from};

use oat_image::InitWord;
use oat_ir::GlobalItem;
use std::alloc::{AllocError, Global};

fn size_in_words(item: &GlobalItem) -> u32
    ensures { result ≡ size_in_words item.now }
{
    match item {
        GlobalItem::Scalar { .. } | GlobalItem::FnScalar { .. } => 1,
        GlobalItem::Array { len, .. } | GlobalItem::CriticalArray { len, .. } => *len,
    }
}

fn size_in_cells(item: &GlobalItem) -> u32
    ensures { result ≡ size_in_cells item.now }
{
    match item {
        GlobalItem::Scalar { critical, .. } => u32::from(*critical),
        GlobalItem::CriticalArray { len, .. } => *len,
        GlobalItem::FnScalar { .. } | GlobalItem::Array { .. } => 0,
    }
}

fn start_of(item: &GlobalItem) -> u64
    ensures { result ≡ start_of item.now }
{
    match item {
        GlobalItem::Scalar { start, .. } => start.cast_unsigned(),
        _ => 0,
    }
}

/// The words that aren't zero at the start.
pub(crate) fn words_at_start(
    alloc: Global,
    globals: &[GlobalItem],
) -> Result<Vec<InitWord>, AllocError>
    requires { sum_by size_in_words globals.now ≤ 65536 }
    ensures { IfOk result (λ words. words.items ≡ words_from 0 globals.now) }
{
    let mut words = Vec::new(alloc);
    let mut index = 0;
    for item in globals {
        push_word(&mut words, index, start_of(item))?;
        index += size_in_words(item);
    }
    Ok(words)
}

fn push_word(words: &mut Vec<InitWord>, index: u32, value: u64) -> Result<(), AllocError>
    ensures { OnOk result (words.new.items ≡ words.old.items ++ word_at_start index value) }
{
    if value != 0 {
        words.push(InitWord { index, value })?;
    }
    Ok(())
}

/// The numbers of the words that are cells.
pub(crate) fn cell_words(alloc: Global, globals: &[GlobalItem]) -> Result<Vec<u32>, AllocError>
    requires { sum_by size_in_words globals.now ≤ 65536 }
    ensures { IfOk result (λ cells. cells.items ≡ cell_words globals.now) }
{
    let mut cells = Vec::new(alloc);
    let mut first = 0;
    for item in globals {
        push_cells(&mut cells, first, size_in_cells(item))?;
        first += size_in_words(item);
    }
    Ok(cells)
}

/// So many cells from a word on.
fn push_cells(cells: &mut Vec<u32>, first: u32, count: u32) -> Result<(), AllocError>
    requires { first + count ≤ 65536 }
    ensures { OnOk result (cells.new.items ≡ cells.old.items ++ range_with_len first count) }
{
    for i in 0..count {
        cells.push(first + i)?;
    }
    Ok(())
}
