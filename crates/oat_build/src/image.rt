//! The image of items that were assembled.
ghost use Rattle.std.specs.Prelude.{◌≡◌, IfOk, List};
ghost use Rattle.oat_match.specs.{code_base, Item, expansion, layout, CanBeAssembled, LabelsStandOnce, IsChecked, built_image, symbols_of};

use crate::addresses::LabelAddresses;
use crate::data::{cell_words, words_at_start};
use crate::rows::rows;
use crate::symbols::list_symbols;
use oat_asm::{Assembled, Items};
use oat_image::Image;
use oat_ir::Program;
use oat_list::Listed;
use oat_map::Map;
use std::alloc::{AllocError, Global};

/// The image of a program, of which these are the expanded items and what became of them.
pub(crate) fn image_of(
    alloc: Global,
    program: &Program,
    items: &Items,
    assembled: Assembled,
) -> Result<Image, AllocError>
    requires checked { IsChecked program.now }
    requires whole { CanBeAssembled items.now }
    requires once { LabelsStandOnce items.now }
    requires laid { assembled ≡ layout items.now code_base }
    ensures { IfOk result (λ image. (marked : List Item) → items.now ≡ expansion marked → image ≡ built_image (symbols_of program.now) marked) }
{
    let addresses = LabelAddresses::new(alloc, items, &assembled)?;
    let symbols = list_symbols(alloc, program, &addresses)?;
    let rows = rows(alloc, assembled.notes.as_slice(), &addresses)?;
    let words = words_at_start(alloc, program.globals.as_slice())?;
    let cells = cell_words(alloc, program.globals.as_slice())?;
    Ok(Image {
        code: assembled.code,
        words: Listed::from_vec(words),
        cells: Listed::from_vec(cells),
        map: Map {
            functions: Listed::from_vec(symbols.functions),
            blocks: Listed::from_vec(symbols.blocks),
            rows: Listed::from_vec(rows),
        },
    })
}
