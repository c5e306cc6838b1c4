ghost use Rattle.std.specs.Prelude.{◌≡◌, ◌↔◌, ℕ, ◌≤◌, List, length, None, Option, Result, IsTrue};
ghost use Rattle.oat_lines.specs.Faults.{Gives};
ghost use Rattle.oat_image.specs.Reading.{line_at, fixed_at, item_at, items_at, section_at, count_of, number_within, rises};
ghost use Rattle.oat_image.specs.Seen.{seen};

use crate::fault::{ImageFault, ImageFaultKind};
use crate::receiver::Receiver;
use oat_lines::{at_line, cut_at, read_decimal, read_two_fields};
use std::alloc::Global;

/// What is left of a text, and the number of its first line.
#[derive(Drop)]
pub(crate) struct Text<'a> {
    pub(crate) rest: &'a [u8],
    pub(crate) line: u32,
}

/// A kind of line: what it says, and how that is spelled.
pub(crate) trait Form {
    ghost use Rattle.oat_lines.specs.Fields.{ended};
    ghost use Rattle.oat_image.specs.Printing.{Takes};
    ghost use Rattle.oat_image.specs.declared.fault.ImageFaultKind.{ImageFaultKind};

    type Item: Drop;

    ghost reads: { List ℕ → Result Self.Item ImageFaultKind };

    ghost key: { Self.Item → Option ℕ };

    ghost spelling: { Self.Item → List ℕ };

    ghost fits: { Self.Item → Type 0 };

    fn read(line: &[u8]) -> Result<Self::Item, ImageFaultKind>
        ensures { result ≡ reads line.now };

    /// What has to be above that of the item before, where both have one.
    fn key(item: &Self::Item) -> Option<u64>
        ensures { result ≡ key item.now };

    /// Whether the item is in its ranges.
    fn fits(item: &Self::Item) -> bool
        ensures { IsTrue result ↔ fits item.now };

    /// The line with its end.
    fn put<R: Receiver>(item: &Self::Item, out: &mut R)
        ensures { Takes R.holds (ended (spelling item.now)) out.old out.new };
}

/// The first line without its end.
#[tactic(auto, unfolding(crate::specs::Reading::line_at))]
pub(crate) fn next_line<'a>(text: &mut Text<'a>) -> Result<&'a [u8], ImageFault>
    ensures { Gives (λ line. (line.now, seen text.new)) result (line_at (seen text.old)) }
{
    let number = text.line;
    let Some((line, rest)) = cut_at(text.rest, b'\n') else {
        return Err(ImageFault::At(number, ImageFaultKind::Token));
    };
    text.rest = rest;
    text.line = number.saturating_add(1);
    Ok(line)
}

/// A line that is always the same.
#[tactic(auto, unfolding(crate::specs::Reading::fixed_at))]
pub(crate) fn read_fixed(text: &mut Text<'_>, line: &[u8]) -> Result<(), ImageFault>
    ensures { Gives (λ _. seen text.new) result (fixed_at line.now (seen text.old)) }
{
    let number = text.line;
    if next_line(text)? != line {
        return Err(ImageFault::At(number, ImageFaultKind::Token));
    }
    Ok(())
}

pub(crate) fn is_above(last: Option<u64>, next: Option<u64>) -> bool
    ensures { result ≡ rises last next }
{
    match (last, next) {
        (Some(last), Some(next)) => last < next,
        _ => true,
    }
}

/// A line, whose key has to be above the last one.
#[tactic(auto, unfolding(crate::specs::Reading::item_at))]
fn read_item<F: Form>(last: Option<u64>, text: &mut Text<'_>) -> Result<F::Item, ImageFault>
    ensures { Gives (λ item. (item, seen text.new)) result (item_at F.reads F.key last (seen text.old)) }
{
    let number = text.line;
    let line = next_line(text)?;
    let item = at_line(number, F::read(line))?;
    if !is_above(last, F::key(&item)) {
        return Err(ImageFault::At(number, ImageFaultKind::Order));
    }
    Ok(item)
}

fn read_items<F: Form>(
    alloc: Global,
    count: u64,
    text: &mut Text<'_>,
) -> Result<Vec<F::Item>, ImageFault>
    ensures { Gives (λ items. (items.items, seen text.new)) result (items_at F.reads F.key count None (seen text.old)) }
{
    let mut items = Vec::new(alloc);
    let mut last = None;
    for _ in 0..count {
        let item = read_item::<F>(last, text)?;
        last = F::key(&item);
        items.push(item)?;
    }
    Ok(items)
}

fn read_number_within(least: u64, most: u64, word: &[u8]) -> Result<u64, ImageFaultKind>
    requires { most ≤ 131072 }
    ensures { result ≡ number_within least most word.now }
{
    let Some(count) = read_decimal(word) else {
        return Err(ImageFaultKind::Number);
    };
    if count < least || count > most {
        return Err(ImageFaultKind::Limit);
    }
    Ok(count)
}

#[tactic(auto, unfolding(crate::specs::Reading::count_of))]
fn read_count(keyword: &[u8], least: u64, most: u64, line: &[u8]) -> Result<u64, ImageFaultKind>
    requires { most ≤ 131072 }
    ensures { result ≡ count_of keyword.now least most line.now }
{
    let Some((first, second)) = read_two_fields(line) else {
        return Err(ImageFaultKind::Token);
    };
    if first != keyword {
        return Err(ImageFaultKind::Token);
    }
    read_number_within(least, most, second)
}

/// A line with a keyword and a number within bounds, and a line for each item.
#[tactic(auto, unfolding(crate::specs::Reading::section_at))]
pub(crate) fn read_section<F: Form>(
    alloc: Global,
    keyword: &[u8],
    least: u64,
    most: u64,
    text: &mut Text<'_>,
) -> Result<Vec<F::Item>, ImageFault>
    requires { most ≤ 131072 }
    ensures { Gives (λ items. (items.items, seen text.new)) result
        (section_at keyword.now least most F.reads F.key (seen text.old)) }
{
    let number = text.line;
    let line = next_line(text)?;
    let count = at_line(number, read_count(keyword, least, most, line))?;
    read_items::<F>(alloc, count, text)
}
