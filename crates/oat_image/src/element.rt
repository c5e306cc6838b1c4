// Rows of elements of critical arrays.
ghost use Rattle.std.specs.Prelude.{◌≡◌, ◌↔◌, ◌≤◌, [], ◌∷◌, IfOk, IsTrue, decimal};
ghost use Rattle.oat_lines.specs.Fields.{spaced, ended};
ghost use Rattle.oat_lines.specs.Hexadecimal.{hexadecimal};
ghost use Rattle.oat_image.specs.Printing.{Takes};
ghost use Rattle.oat_image.specs.Grammar.{IsLength};
ghost use Rattle.oat_image.specs.RowReading.{array_of, address_and_array, element_row};

use crate::fault::ImageFaultKind;
use crate::line::{read_address, read_number};
use crate::receiver::Receiver;
use crate::words::{address_digits, put_four};
use itoa::Buffer;
use oat_lines::read_three_fields;
use oat_map::Row;

/// The most elements of a critical array.
const MOST_ELEMENTS: u16 = 4096;

/// A row that uses or defines an element of a critical array.
#[derive(Clone, Copy)]
pub(crate) enum ElementKind {
    UseAt,
    DefAt,
}

pub(crate) fn is_length(len: u16) -> bool
    ensures { IsTrue result ↔ IsLength len }
{
    1 <= len && len <= MOST_ELEMENTS
}

#[tactic(auto, unfolding(crate::specs::RowReading::array_of))]
fn read_array(first: &[u8], second: &[u8], third: &[u8]) -> Result<(u64, u64, u64), ImageFaultKind>
    ensures value { result ≡ array_of first.now second.now third.now }
    ensures cell { IfOk result (λ p. p.1 ≤ 65535) }
    ensures len { IfOk result (λ p. p.2 ≤ 4096) }
{
    let address = read_address(first)?;
    let cell = read_number(0, 65535, second)?;
    let len = read_number(1, u64::from(MOST_ELEMENTS), third)?;
    Ok((address, cell, len))
}

#[tactic(auto, unfolding(crate::specs::RowReading::address_and_array))]
fn read_address_and_array(fields: &[u8]) -> Result<(u64, u64, u64), ImageFaultKind>
    ensures value { result ≡ address_and_array fields.now }
    ensures cell { IfOk result (λ p. p.1 ≤ 65535) }
    ensures len { IfOk result (λ p. p.2 ≤ 4096) }
{
    let Some((first, second, third)) = read_three_fields(fields) else {
        return Err(ImageFaultKind::Token);
    };
    read_array(first, second, third)
}

#[tactic(auto, unfolding(crate::specs::RowReading::element_row))]
pub(crate) fn read_element(kind: ElementKind, fields: &[u8]) -> Result<Row, ImageFaultKind>
    ensures { result ≡ element_row kind fields.now }
{
    let (at, cell, len) = read_address_and_array(fields)?;
    let cell = cell as u16;
    let len = len as u16;
    match kind {
        ElementKind::UseAt => Ok(Row::UseAt { at, cell, len }),
        ElementKind::DefAt => Ok(Row::DefAt { at, cell, len }),
    }
}

pub(crate) fn put_element<R: Receiver>(out: &mut R, keyword: &[u8], at: u64, cell: u16, len: u16)
    ensures { Takes R.holds (ended (spaced (keyword.now ∷ hexadecimal 8 at ∷ decimal cell ∷ decimal len ∷ []))) out.old out.new }
{
    let mut cell_digits = Buffer::new();
    let mut len_digits = Buffer::new();
    put_four(
        out,
        keyword,
        &address_digits(at),
        cell_digits.format(cell).as_bytes(),
        len_digits.format(len).as_bytes(),
    );
}
