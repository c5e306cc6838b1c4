//! The lines of a path.

ghost use Rattle.std.specs.Prelude.{◌≡◌, ◌++◌, ◌↔◌, IsTrue, OnOk, IfOk, find, option_map, unwrap_or, codes};
ghost use Rattle.std.specs.Fmt.{decimal};
ghost use Rattle.oat_verify.specs.{address_of, is_returned_to, place_name, block_name, function_below, site, call_site};
ghost use Rattle.oat_report.specs.PathLine.{place_text, site_text, space, address_digits, edge_line};

use crate::place::{block_at, function_at, last_below, number_in_place, place_at_or_below};
use crate::text::{put_address, put_number};
use oat_map::{Edge, Map, Row};
use std::alloc::{AllocError, Global};

fn put_function_below(out: &mut Vec<u8>, map: &Map, place: u64) -> Result<(), AllocError>
    ensures { OnOk result (out.new.items ≡ out.old.items ++ function_below map.now place) }
{
    match last_below(map.functions.as_slice(), place) {
        Some(function) => out.extend_from_slice(function.name.as_bytes()),
        None => Ok(()),
    }
}

fn put_block(out: &mut Vec<u8>, map: &Map, place: u64) -> Result<(), AllocError>
    ensures { OnOk result (out.new.items ≡ out.old.items ++ place_text (block_name map.now place)) }
{
    match block_at(map.blocks.as_slice(), place) {
        Some(block) => {
            put_function_below(out, map, place)?;
            out.extend_from_slice(b".")?;
            out.extend_from_slice(block.label.as_bytes())
        }
        None => out.extend_from_slice(b"-"),
    }
}

fn put_place(out: &mut Vec<u8>, map: &Map, place: u64) -> Result<(), AllocError>
    ensures { OnOk result (out.new.items ≡ out.old.items ++ place_text (place_name map.now place)) }
{
    match function_at(map.functions.as_slice(), place) {
        Some(function) => out.extend_from_slice(function.name.as_bytes()),
        None => put_block(out, map, place),
    }
}

fn put_site(out: &mut Vec<u8>, map: &Map, address: u64) -> Result<(), AllocError>
    ensures { OnOk result (out.new.items ≡ out.old.items ++ site_text (site map.now address)) }
{
    let place = place_at_or_below(map, address);
    match place {
        Some(place) => put_place(out, map, place)?,
        None => out.extend_from_slice(b"-")?,
    }
    out.extend_from_slice(b"#")?;
    put_number(out, number_in_place(map, place, address))
}

/// Whether a row calls and is returned to at `back`.
fn is_returned_to(row: &Row, back: u64) -> bool
    ensures { result ≡ is_returned_to back row.now }
{
    matches!(row, Row::Call { .. } | Row::ICall { .. }) && row.after() == back
}

/// The address of the call that is returned to at `back`, or `back` where there is none.
pub fn call_of(rows: &[Row], back: u64) -> u64
    ensures { result ≡ unwrap_or (option_map address_of (find (is_returned_to back) rows.now)) back }
{
    match rows.iter().find(|row| is_returned_to(row, back)) {
        Some(row) => row.address(),
        None => back,
    }
}

fn put_call_site(out: &mut Vec<u8>, map: &Map, back: u64) -> Result<(), AllocError>
    ensures { OnOk result (out.new.items ≡ out.old.items ++ site_text (call_site map.now back)) }
{
    put_site(out, map, call_of(map.rows.as_slice(), back))
}

/// The keyword and the site of a line.
fn begin_line(alloc: Global, keyword: &[u8], map: &Map, from: u64) -> Result<Vec<u8>, AllocError>
    ensures { IfOk result (λ line. line.items ≡ keyword.now ++ site_text (site map.now from) ++ space) }
{
    let mut line = Vec::from_slice(alloc, keyword)?;
    put_site(&mut line, map, from)?;
    line.extend_from_slice(b" ")?;
    Ok(line)
}

fn line_to_place(
    alloc: Global,
    keyword: &[u8],
    map: &Map,
    from: u64,
    to: u64,
) -> Result<Vec<u8>, AllocError>
    ensures { IfOk result (λ line. line.items ≡ keyword.now ++ site_text (site map.now from) ++ space ++ place_text (place_name map.now to)) }
{
    let mut line = begin_line(alloc, keyword, map, from)?;
    put_place(&mut line, map, to)?;
    Ok(line)
}

fn branch_line(
    alloc: Global,
    map: &Map,
    from: u64,
    bit: bool,
    to: u64,
) -> Result<Vec<u8>, AllocError>
    ensures { IfOk result (λ line. line.items ≡ edge_line map.now (Edge.Branch from bit to)) }
{
    let mut line = begin_line(alloc, b"branch ", map, from)?;
    line.extend_from_slice(if bit { b"1" } else { b"0" })?;
    line.extend_from_slice(b" ")?;
    put_place(&mut line, map, to)?;
    Ok(line)
}

fn return_line(alloc: Global, map: &Map, from: u64, to: u64) -> Result<Vec<u8>, AllocError>
    ensures { IfOk result (λ line. line.items ≡ codes "ret " ++ site_text (site map.now from) ++ space ++ site_text (call_site map.now to)) }
{
    let mut line = begin_line(alloc, b"ret ", map, from)?;
    put_call_site(&mut line, map, to)?;
    Ok(line)
}

pub fn end_line(alloc: Global, op: u16) -> Result<Vec<u8>, AllocError>
    ensures { IfOk result (λ line. line.items ≡ codes "end " ++ decimal op) }
{
    let mut line = Vec::from_slice(alloc, b"end ")?;
    put_number(&mut line, usize::from(op))?;
    Ok(line)
}

fn stray_line(alloc: Global, from: u64, to: u64) -> Result<Vec<u8>, AllocError>
    ensures { IfOk result (λ line. line.items ≡ codes "stray " ++ address_digits from ++ space ++ address_digits to) }
{
    let mut line = Vec::from_slice(alloc, b"stray ")?;
    put_address(&mut line, from)?;
    line.extend_from_slice(b" ")?;
    put_address(&mut line, to)?;
    Ok(line)
}

/// The line of an edge, without its line end (docs/FORMATS.md, "Path lines").
pub fn path_line(alloc: Global, map: &Map, edge: &Edge) -> Result<Vec<u8>, AllocError>
    ensures { IfOk result (λ line. line.items ≡ edge_line map.now edge.now) }
{
    match *edge {
        Edge::Jump { from, to } => line_to_place(alloc, b"jump ", map, from, to),
        Edge::Branch { from, bit, to } => branch_line(alloc, map, from, bit, to),
        Edge::Call { from, to } => line_to_place(alloc, b"call ", map, from, to),
        Edge::ICall { from, to } => line_to_place(alloc, b"icall ", map, from, to),
        Edge::Ret { from, to } => return_line(alloc, map, from, to),
        Edge::End { op } => end_line(alloc, op),
        Edge::Stray { from, to } => stray_line(alloc, from, to),
    }
}
