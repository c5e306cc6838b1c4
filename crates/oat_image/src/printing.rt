ghost use Rattle.std.specs.Prelude.{◌≡◌, IfOk};
ghost use Rattle.std.specs.List.{flat_map};
ghost use Rattle.sha2.specs.Sha256.{sha256};
ghost use Rattle.oat_lines.specs.Fields.{ended};
ghost use Rattle.oat_image.specs.Spelling.{section_text};
ghost use Rattle.oat_image.specs.Grammar.{has_elements, image_text, version_line};
ghost use Rattle.oat_image.specs.Printing.{Takes, memory_text, map_text};

use crate::image::Image;
use crate::line::{BlockLine, CellLine, CodeLine, DataLine, FunctionLine};
use crate::receiver::{Page, Receiver};
use crate::row::RowLine;
use crate::text::Form;
use crate::version::{has_elements, version_line};
use crate::words::{put_line, put_two};
use itoa::Buffer;
use sha2::{Digest, Sha256};
use std::alloc::{AllocError, Global};

fn put_items<F: Form, R: Receiver>(items: &[F::Item], out: &mut R)
    ensures { Takes R.holds (flat_map (λ item. ended (F.spelling item)) items.now) out.old out.new }
{
    for item in items {
        F::put(item, out);
    }
}

/// A line with a keyword and the number of items, and a line for each item.
fn put_section<F: Form, R: Receiver>(keyword: &[u8], items: &[F::Item], out: &mut R)
    ensures { Takes R.holds (section_text keyword.now F.spelling items.now) out.old out.new }
{
    let mut count = Buffer::new();
    put_two(out, keyword, count.format(items.len()).as_bytes());
    put_items::<F, R>(items, out);
}

/// The first line, which tells the version.
fn put_version<R: Receiver>(image: &Image, out: &mut R)
    ensures { Takes R.holds (ended (version_line (has_elements image.now.map.rows))) out.old out.new }
{
    put_line(out, version_line(has_elements(image.map.rows.as_slice())));
}

/// Code, data and cells.
fn put_memory<R: Receiver>(image: &Image, out: &mut R)
    ensures { Takes R.holds (memory_text image.now) out.old out.new }
{
    put_section::<CodeLine, R>(b"code", image.code.as_slice(), out);
    put_section::<DataLine, R>(b"data", image.words.as_slice(), out);
    put_section::<CellLine, R>(b"cells", image.cells.as_slice(), out);
}

/// Functions, blocks and rows.
fn put_map<R: Receiver>(image: &Image, out: &mut R)
    ensures { Takes R.holds (map_text image.now) out.old out.new }
{
    put_section::<FunctionLine, R>(b"functions", image.map.functions.as_slice(), out);
    put_section::<BlockLine, R>(b"blocks", image.map.blocks.as_slice(), out);
    put_section::<RowLine<true>, R>(b"rows", image.map.rows.as_slice(), out);
}

fn put_image<R: Receiver>(image: &Image, out: &mut R)
    ensures { Takes R.holds (image_text image.now) out.old out.new }
{
    put_version(image, out);
    put_memory(image, out);
    put_map(image, out);
    put_line(out, b"end");
}

/// The one text of an image.
///
/// `read_image` gives the image back where it is well formed and the text is within the limit there.
pub fn print_image(alloc: Global, image: &Image) -> Result<Vec<u8>, AllocError>
    ensures { IfOk result (λ text. text.items ≡ image_text image.now) }
{
    let mut page = Page::new(alloc);
    put_image(image, &mut page);
    page.finish()
}

/// The SHA-256 digest of the text of an image; it takes no memory.
pub fn image_digest(image: &Image) -> [u8; 32]
    ensures { result ≡ sha256 (image_text image.now) }
{
    let mut hasher = Sha256::new();
    put_image(image, &mut hasher);
    hasher.finalize()
}
