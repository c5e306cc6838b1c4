//! The places of a map: entries of functions and starts of blocks.

ghost use Rattle.std.specs.Prelude.{◌≡◌, ◌↔◌, ◌++◌, ◌<◌, ◌≤◌, IsTrue, Option, Some, OnOk, MatchOption, count_by, filter, fold, nat_le, None, if◌then◌else◌, ◌==◌, find, reverse, nat_lt};
ghost use Rattle.std.specs.Option.{option_copied};
ghost use Rattle.oat_verify.specs.{
  entries_of,
  starts_of,
  place_of,
  places,
  later_of,
  place_name,
  function_below,
  is_numbered_before,
  is_numbered,
  call_site,
  site,
};
ghost use Rattle.oat_report.specs.Counting.{is_counted, is_not_above};

use oat_map::{Block, Function, Map, Name, Row};
use std::alloc::AllocError;

/// The greater of the place so far and `place`, if that is at or below `address`.
fn later(best: Option<u64>, place: u64, address: u64) -> Option<u64>
    ensures { result ≡ (if nat_le place address then later_of best place else best) }
{
    if place > address {
        return best;
    }
    match best {
        Some(other) => Some(other.max(place)),
        None => Some(place),
    }
}

fn greatest_entry(functions: &[Function], address: u64) -> Option<u64>
    ensures { result ≡ fold later_of None (filter (λ place. nat_le place address) (entries_of functions.now)) }
{
    let mut best = None;
    for function in functions {
        best = later(best, function.entry, address);
    }
    best
}

fn greatest_start(blocks: &[Block], above: Option<u64>, address: u64) -> Option<u64>
    ensures { result ≡ fold later_of above (filter (λ place. nat_le place address) (starts_of blocks.now)) }
{
    let mut best = above;
    for block in blocks {
        best = later(best, block.start, address);
    }
    best
}

/// The greatest place at or below an address.
pub fn place_at_or_below(map: &Map, address: u64) -> Option<u64>
    ensures { result ≡ place_of map.now address }
{
    let entry = greatest_entry(map.functions.as_slice(), address);
    greatest_start(map.blocks.as_slice(), entry, address)
}

fn is_numbered(row: &Row) -> bool
    ensures { result ≡ is_numbered row.now }
{
    matches!(
        row,
        Row::Jump { .. }
            | Row::Branch { .. }
            | Row::Call { .. }
            | Row::ICall { .. }
            | Row::Ret { .. }
    )
}

/// Whether a row transfers control, lies below `address`, and has no place between itself and there.
fn is_counted(row: &Row, place: Option<u64>, address: u64) -> bool
    ensures { result ≡ is_counted place address row.now }
{
    is_numbered(row) && row.address() < address && place.is_none_or(|place| place <= row.address())
}

fn count_rows(rows: &[Row], place: Option<u64>, address: u64) -> usize
    ensures { result ≡ count_by (is_counted place address) rows.now }
{
    rows.iter()
        .filter(|row| is_counted(row, place, address))
        .count()
}

/// The number of the row at an address among those of its place.
pub fn number_in_place(map: &Map, place: Option<u64>, address: u64) -> usize
    requires { place ≡ place_of map.now address }
    ensures { result ≡ count_by (is_numbered_before map.now address) map.now.rows }
{
    count_rows(map.rows.as_slice(), place, address)
}

pub fn function_at(functions: &[Function], place: u64) -> Option<&Function>
    ensures { option_copied result ≡ find (λ function. function.entry == place) functions.now }
{
    functions.iter().find(|function| function.entry == place)
}

pub fn block_at(blocks: &[Block], place: u64) -> Option<&Block>
    ensures { option_copied result ≡ find (λ block. block.start == place) blocks.now }
{
    blocks.iter().find(|block| block.start == place)
}

pub fn last_below(functions: &[Function], address: u64) -> Option<&Function>
    ensures { option_copied result ≡ find (λ function. nat_lt function.entry address) (reverse functions.now) }
{
    functions
        .iter()
        .rev()
        .find(|function| function.entry < address)
}
