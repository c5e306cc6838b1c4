ghost use Rattle.std.specs.Prelude.{◌≡◌, ◌<◌, ◌≤◌, [], ◌∷◌, IfOk, decimal};
ghost use Rattle.oat_lines.specs.Fields.{spaced, ended};
ghost use Rattle.oat_lines.specs.Hexadecimal.{hexadecimal};
ghost use Rattle.oat_image.specs.Printing.{Takes};
ghost use Rattle.oat_image.specs.Grammar.{row_line, IsRow};
ghost use Rattle.oat_image.specs.LineReading.{no_key};
ghost use Rattle.oat_image.specs.RowReading.{sole_address, two_addresses, addresses_of, three_addresses, address_and_number, edge_row, point_row, row_with, row_of};

use crate::element::{is_length, put_element, read_element};
use crate::fault::ImageFaultKind;
use crate::keyword::{EdgeKind, PointKind, RowKind, read_kind_in};
use crate::line::{is_address, read_address, read_number};
use crate::receiver::Receiver;
use crate::text::Form;
use crate::words::{address_digits, put_four, put_three, put_two};
use itoa::Buffer;
use oat_lines::{read_field, read_one_field, read_three_fields, read_two_fields};
use oat_map::Row;

/// A row in a text of the second version, or of the first.
pub(crate) struct RowLine<const SECOND: bool>;

#[tactic(auto, unfolding(crate::specs::RowReading::sole_address))]
fn read_sole_address(fields: &[u8]) -> Result<u64, ImageFaultKind>
    ensures { result ≡ sole_address fields.now }
{
    let Some(word) = read_one_field(fields) else {
        return Err(ImageFaultKind::Token);
    };
    read_address(word)
}

#[tactic(auto, unfolding(crate::specs::RowReading::two_addresses))]
fn read_two_addresses(fields: &[u8]) -> Result<(u64, u64), ImageFaultKind>
    ensures { result ≡ two_addresses fields.now }
{
    let Some((first, second)) = read_two_fields(fields) else {
        return Err(ImageFaultKind::Token);
    };
    let first = read_address(first)?;
    let second = read_address(second)?;
    Ok((first, second))
}

#[tactic(auto, unfolding(crate::specs::RowReading::addresses_of))]
fn read_addresses(
    first: &[u8],
    second: &[u8],
    third: &[u8],
) -> Result<(u64, u64, u64), ImageFaultKind>
    ensures { result ≡ addresses_of first.now second.now third.now }
{
    let first = read_address(first)?;
    let second = read_address(second)?;
    let third = read_address(third)?;
    Ok((first, second, third))
}

#[tactic(auto, unfolding(crate::specs::RowReading::three_addresses))]
fn read_three_addresses(fields: &[u8]) -> Result<(u64, u64, u64), ImageFaultKind>
    ensures { result ≡ three_addresses fields.now }
{
    let Some((first, second, third)) = read_three_fields(fields) else {
        return Err(ImageFaultKind::Token);
    };
    read_addresses(first, second, third)
}

#[tactic(auto, unfolding(crate::specs::RowReading::address_and_number))]
fn read_address_and_number(
    least: u64,
    most: u64,
    fields: &[u8],
) -> Result<(u64, u64), ImageFaultKind>
    requires { most ≤ 65535 }
    ensures value { result ≡ address_and_number least most fields.now }
    ensures bound { IfOk result (λ p. p.1 ≤ most) }
{
    let Some((first, second)) = read_two_fields(fields) else {
        return Err(ImageFaultKind::Token);
    };
    let address = read_address(first)?;
    let number = read_number(least, most, second)?;
    Ok((address, number))
}

#[tactic(auto, unfolding(crate::specs::RowReading::edge_row))]
fn read_edge(kind: EdgeKind, fields: &[u8]) -> Result<Row, ImageFaultKind>
    ensures { result ≡ edge_row kind fields.now }
{
    match kind {
        EdgeKind::Jump => {
            let (at, to) = read_two_addresses(fields)?;
            Ok(Row::Jump { at, to })
        }
        EdgeKind::Branch => {
            let (at, taken, other) = read_three_addresses(fields)?;
            Ok(Row::Branch { at, taken, other })
        }
        EdgeKind::Call => {
            let (at, to) = read_two_addresses(fields)?;
            Ok(Row::Call { at, to })
        }
        EdgeKind::ICall => {
            let (at, params) = read_address_and_number(0, 4, fields)?;
            let params = params as u8;
            Ok(Row::ICall { at, params })
        }
        EdgeKind::Ret => {
            let at = read_sole_address(fields)?;
            Ok(Row::Ret { at })
        }
    }
}

#[tactic(auto, unfolding(crate::specs::RowReading::point_row))]
fn read_point(kind: PointKind, fields: &[u8]) -> Result<Row, ImageFaultKind>
    ensures { result ≡ point_row kind fields.now }
{
    match kind {
        PointKind::Begin => {
            let (at, op) = read_address_and_number(1, 65535, fields)?;
            Ok(Row::Begin { at, op: op as u16 })
        }
        PointKind::End => {
            let (at, op) = read_address_and_number(1, 65535, fields)?;
            Ok(Row::End { at, op: op as u16 })
        }
        PointKind::UseCell => {
            let (at, cell) = read_address_and_number(0, 65535, fields)?;
            let cell = cell as u16;
            Ok(Row::UseCell { at, cell })
        }
        PointKind::DefCell => {
            let (at, cell) = read_address_and_number(0, 65535, fields)?;
            let cell = cell as u16;
            Ok(Row::DefCell { at, cell })
        }
        PointKind::Check => {
            let at = read_sole_address(fields)?;
            Ok(Row::Check { at })
        }
    }
}

fn read_row(kind: RowKind, fields: &[u8]) -> Result<Row, ImageFaultKind>
    ensures { result ≡ row_with kind fields.now }
{
    match kind {
        RowKind::Edge(kind) => read_edge(kind, fields),
        RowKind::Point(kind) => read_point(kind, fields),
        RowKind::Element(kind) => read_element(kind, fields),
    }
}

fn put_to<R: Receiver>(out: &mut R, keyword: &[u8], at: u64, to: u64)
    ensures { Takes R.holds (ended (spaced (keyword.now ∷ hexadecimal 8 at ∷ hexadecimal 8 to ∷ []))) out.old out.new }
{
    put_three(out, keyword, &address_digits(at), &address_digits(to));
}

fn put_numbered<R: Receiver>(out: &mut R, keyword: &[u8], at: u64, number: u16)
    ensures { Takes R.holds (ended (spaced (keyword.now ∷ hexadecimal 8 at ∷ decimal number ∷ []))) out.old out.new }
{
    let mut digits = Buffer::new();
    put_three(
        out,
        keyword,
        &address_digits(at),
        digits.format(number).as_bytes(),
    );
}

impl<const SECOND: bool> Form for RowLine<SECOND> {
    type Item = Row;

    ghost reads = { row_of SECOND };

    ghost key = { no_key };

    ghost spelling = { row_line };

    ghost fits = { IsRow };

    #[tactic(auto, unfolding(crate::specs::RowReading::row_of))]
    fn read(line: &[u8]) -> Result<Row, ImageFaultKind> {
        let Some((keyword, fields)) = read_field(line) else {
            return Err(ImageFaultKind::Token);
        };
        let kind = read_kind_in(SECOND, keyword)?;
        read_row(kind, fields)
    }

    fn key(_item: &Row) -> Option<u64> {
        None
    }

    fn fits(row: &Row) -> bool {
        match row {
            Row::Jump { at, to } | Row::Call { at, to } => is_address(*at) && is_address(*to),
            Row::Branch { at, taken, other } => {
                is_address(*at) && is_address(*taken) && is_address(*other)
            }
            Row::ICall { at, params } => is_address(*at) && *params <= 4,
            Row::Ret { at } | Row::Check { at } => is_address(*at),
            Row::Begin { at, op } | Row::End { at, op } => is_address(*at) && 1 <= *op,
            Row::UseCell { at, cell } | Row::DefCell { at, cell } => {
                // Each number of 16 bits is an index.
                let _cell = *cell;
                is_address(*at)
            }
            Row::UseAt { at, cell, len } | Row::DefAt { at, cell, len } => {
                let _cell = *cell;
                is_address(*at) && is_length(*len)
            }
        }
    }

    fn put<R: Receiver>(row: &Row, out: &mut R) {
        match row {
            Row::Jump { at, to } => put_to(out, b"jump", *at, *to),
            Row::Branch { at, taken, other } => put_four(
                out,
                b"branch",
                &address_digits(*at),
                &address_digits(*taken),
                &address_digits(*other),
            ),
            Row::Call { at, to } => put_to(out, b"call", *at, *to),
            Row::ICall { at, params } => put_numbered(out, b"icall", *at, u16::from(*params)),
            Row::Ret { at } => put_two(out, b"ret", &address_digits(*at)),
            Row::Begin { at, op } => put_numbered(out, b"begin", *at, *op),
            Row::End { at, op } => put_numbered(out, b"end", *at, *op),
            Row::UseCell { at, cell } => put_numbered(out, b"use", *at, *cell),
            Row::DefCell { at, cell } => put_numbered(out, b"def", *at, *cell),
            Row::UseAt { at, cell, len } => put_element(out, b"useat", *at, *cell, *len),
            Row::DefAt { at, cell, len } => put_element(out, b"defat", *at, *cell, *len),
            Row::Check { at } => put_two(out, b"check", &address_digits(*at)),
        }
    }
}
