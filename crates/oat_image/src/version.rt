// The two versions of the text: an image with a row of an element has a text of the second, and each other one of the first.
ghost use Rattle.std.specs.Prelude.{◌≡◌};
ghost use Rattle.oat_lines.specs.Faults.{Gives};
ghost use Rattle.oat_image.specs.Grammar.{has_elements, is_of_element, version_line};
ghost use Rattle.oat_image.specs.ImageReading.{version_at, version_of};
ghost use Rattle.oat_image.specs.Seen.{seen};

use crate::fault::{ImageFault, ImageFaultKind};
use crate::text::{Text, next_line};
use oat_lines::at_line;
use oat_map::Row;

fn is_of_element(row: &Row) -> bool
    ensures { result ≡ is_of_element row.now }
{
    matches!(row, Row::UseAt { .. } | Row::DefAt { .. })
}

pub(crate) fn has_elements(rows: &[Row]) -> bool
    ensures { result ≡ has_elements rows.now }
{
    rows.iter().any(is_of_element)
}

pub(crate) fn version_line(second: bool) -> &'static [u8]
    ensures { result.now ≡ version_line second }
{
    if second {
        b"oat-image 2"
    } else {
        b"oat-image 1"
    }
}

fn version_of(line: &[u8]) -> Result<bool, ImageFaultKind>
    ensures { result ≡ version_of line.now }
{
    if line == version_line(false) {
        Ok(false)
    } else if line == version_line(true) {
        Ok(true)
    } else {
        Err(ImageFaultKind::Token)
    }
}

/// Whether the text is of the second version.
#[tactic(auto, unfolding(crate::specs::ImageReading::version_at))]
pub(crate) fn read_version(text: &mut Text<'_>) -> Result<bool, ImageFault>
    ensures { Gives (λ second. (second, seen text.new)) result (version_at (seen text.old)) }
{
    let number = text.line;
    let line = next_line(text)?;
    at_line(number, version_of(line))
}
