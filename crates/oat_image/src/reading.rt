ghost use Rattle.std.specs.Prelude.{◌≡◌, ◌≤◌, codes, length, IfOk, Ok};
ghost use Rattle.oat_image.specs.Grammar.{IsImageText};
ghost use Rattle.oat_lines.specs.Faults.{Gives};
ghost use Rattle.oat_image.specs.LineReading.{no_key};
ghost use Rattle.oat_image.specs.RowReading.{row_of};
ghost use Rattle.oat_image.specs.ImageReading.{memory_at, map_at, ending_at, parts_at, image_at};
ghost use Rattle.oat_image.specs.Reading.{section_at};
ghost use Rattle.oat_image.specs.Seen.{seen};

use crate::fault::{ImageFault, ImageFaultKind};
use crate::image::{Image, InitWord};
use crate::line::{BlockLine, CellLine, CodeLine, DataLine, FunctionLine};
use crate::row::RowLine;
use crate::text::{Text, read_fixed, read_section};
use crate::version::{has_elements, read_version};
use oat_map::{Listed, Map, Row};
use std::alloc::Global;

/// The most words of code, and so the most items that have an address each.
pub(crate) const MOST_CODE_WORDS: u64 = 131_072;

/// The most words of global data.
pub(crate) const MOST_DATA_WORDS: u64 = 65_536;

/// Code, data and cells.
#[derive(Drop)]
struct Memory {
    code: Vec<u32>,
    words: Vec<InitWord>,
    cells: Vec<u32>,
}

#[tactic(auto, unfolding(crate::specs::ImageReading::memory_at))]
fn read_memory(alloc: Global, text: &mut Text<'_>) -> Result<Memory, ImageFault>
    ensures { Gives (λ m. (m.code.items, m.words.items, m.cells.items, seen text.new)) result
        (memory_at (seen text.old)) }
{
    let code = read_section::<CodeLine>(alloc, b"code", 1, MOST_CODE_WORDS, text)?;
    let words = read_section::<DataLine>(alloc, b"data", 0, MOST_DATA_WORDS, text)?;
    let cells = read_section::<CellLine>(alloc, b"cells", 0, MOST_DATA_WORDS, text)?;
    Ok(Memory { code, words, cells })
}

fn read_rows(alloc: Global, second: bool, text: &mut Text<'_>) -> Result<Vec<Row>, ImageFault>
    ensures { Gives (λ rows. (rows.items, seen text.new)) result
        (section_at (codes "rows") 0 131072 (row_of second) no_key (seen text.old)) }
{
    if second {
        read_section::<RowLine<true>>(alloc, b"rows", 0, MOST_CODE_WORDS, text)
    } else {
        read_section::<RowLine<false>>(alloc, b"rows", 0, MOST_CODE_WORDS, text)
    }
}

/// Functions, blocks and rows.
#[tactic(auto, unfolding(crate::specs::ImageReading::map_at))]
fn read_map(alloc: Global, second: bool, text: &mut Text<'_>) -> Result<Map, ImageFault>
    ensures { Gives (λ m. (m, seen text.new)) result (map_at second (seen text.old)) }
{
    let functions = read_section::<FunctionLine>(alloc, b"functions", 0, MOST_CODE_WORDS, text)?;
    let blocks = read_section::<BlockLine>(alloc, b"blocks", 0, MOST_CODE_WORDS, text)?;
    let rows = read_rows(alloc, second, text)?;
    Ok(Map {
        functions: Listed::from_vec(functions),
        blocks: Listed::from_vec(blocks),
        rows: Listed::from_vec(rows),
    })
}

#[tactic(auto, unfolding(crate::specs::ImageReading::ending_at))]
fn read_ending(second: bool, rows: &[Row], text: &mut Text<'_>) -> Result<(), ImageFault>
    ensures { Gives (λ _. tt) result (ending_at second rows.now (seen text.old)) }
{
    let number = text.line;
    read_fixed(text, b"end")?;
    if second && !has_elements(rows) {
        return Err(ImageFault::At(number, ImageFaultKind::Token));
    }
    if !text.rest.is_empty() {
        return Err(ImageFault::At(text.line, ImageFaultKind::Token));
    }
    Ok(())
}

#[tactic(auto, unfolding(crate::specs::ImageReading::parts_at))]
fn read_parts(alloc: Global, second: bool, text: &mut Text<'_>) -> Result<Image, ImageFault>
    ensures { Gives (λ image. image) result (parts_at second (seen text.old)) }
{
    let memory = read_memory(alloc, text)?;
    let map = read_map(alloc, second, text)?;
    read_ending(second, map.rows.as_slice(), text)?;
    Ok(Image {
        code: Listed::from_vec(memory.code),
        words: Listed::from_vec(memory.words),
        cells: Listed::from_vec(memory.cells),
        map,
    })
}

#[tactic(auto, unfolding(crate::specs::ImageReading::image_at))]
fn read_whole(alloc: Global, text: &[u8]) -> Result<Image, ImageFault>
    ensures { Gives (λ image. image) result (image_at text.now) }
{
    let mut text = Text {
        rest: text,
        line: 1,
    };
    let second = read_version(&mut text)?;
    read_parts(alloc, second, &mut text)
}

/// The image of which this is the text; the text has at most 16,777,216 bytes.
pub fn read_image(alloc: Global, text: &[u8]) -> Result<Image, ImageFault>
    requires { length text.now ≤ 16777216 }
    // What is read is an image of this text.
    ensures found { IfOk result (λ image. IsImageText text.now image) }
    // The image of a text is read, unless memory runs out.
    ensures only { (image : Image) → IsImageText text.now image → Gives (λ i. i) result (Ok image) }
    // Which fault it is, and of which line.
    ensures exact { Gives (λ i. i) result (image_at text.now) }
{
    read_whole(alloc, text)
}
