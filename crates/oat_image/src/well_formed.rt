ghost use Rattle.std.specs.Prelude.{◌≡◌, ◌↔◌, IsTrue, None};
ghost use Rattle.std.specs.List.{AllByRecursion};
ghost use Rattle.oat_image.specs.Grammar.{IsWellFormedImage};
ghost use Rattle.oat_image.specs.Rising.{Rising};
ghost use Rattle.oat_image.specs.WellFormed.{IsInOrder, IsMemory, IsFlow};

use crate::image::Image;
use crate::line::{BlockLine, CellLine, CodeLine, DataLine, FunctionLine};
use crate::reading::{MOST_CODE_WORDS, MOST_DATA_WORDS};
use crate::row::RowLine;
use crate::text::{Form, is_above};

fn are_in_range<F: Form>(items: &[F::Item]) -> bool
    ensures { IsTrue result ↔ AllByRecursion F.fits items.now }
{
    items.iter().all(|item| F::fits(item))
}

fn is_rising<F: Form>(items: &[F::Item]) -> bool
    ensures { IsTrue result ↔ Rising F.key None items.now }
{
    let mut last = None;
    for item in items {
        let key = F::key(item);
        if !is_above(last, key) {
            return false;
        }
        last = key;
    }
    true
}

/// Whether these are from `least` to `most` items, each in its ranges and above the one before.
fn is_section<F: Form>(least: u64, most: u64, items: &[F::Item]) -> bool
    ensures { IsTrue result ↔ IsInOrder F.fits F.key least most items.now }
{
    let count = items.len() as u64;
    least <= count && count <= most && are_in_range::<F>(items) && is_rising::<F>(items)
}

fn is_memory(image: &Image) -> bool
    ensures { IsTrue result ↔ IsMemory image.now }
{
    is_section::<CodeLine>(1, MOST_CODE_WORDS, image.code.as_slice())
        && is_section::<DataLine>(0, MOST_DATA_WORDS, image.words.as_slice())
        && is_section::<CellLine>(0, MOST_DATA_WORDS, image.cells.as_slice())
}

fn is_map(image: &Image) -> bool
    ensures { IsTrue result ↔ IsFlow image.now }
{
    is_section::<FunctionLine>(0, MOST_CODE_WORDS, image.map.functions.as_slice())
        && is_section::<BlockLine>(0, MOST_CODE_WORDS, image.map.blocks.as_slice())
        && is_section::<RowLine<true>>(0, MOST_CODE_WORDS, image.map.rows.as_slice())
}

impl Image {
    /// Whether the image is in the ranges and the order of the image text.
    #[tactic(auto, using(crate::proofs::WellFormed::halves))]
    pub fn well_formed(&self) -> bool
        ensures { IsTrue result ↔ IsWellFormedImage self.now }
    {
        is_memory(self) && is_map(self)
    }
}
