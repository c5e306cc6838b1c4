//! The lines that stand beside a verdict.

ghost use Rattle.std.specs.Prelude.{◌≡◌, ◌++◌, OnOk, IfOk};
ghost use Rattle.hex.specs.Hex.{encode_lower};
ghost use Rattle.oat_report.specs.TraceLine.{apart_text, use_text};

use crate::verdict::{put_counted, put_value};
use std::alloc::{AllocError, Global};

/// The line of a checked use, without its line end: its cell, what it found, and what the cell was last defined as.
pub fn use_line(alloc: Global, cell: u32, found: u64, defined: u64) -> Result<Vec<u8>, AllocError>
    ensures { IfOk result (λ line. line.items ≡ use_text cell found defined) }
{
    let mut line = Vec::new(alloc);
    put_counted(&mut line, b"use ", cell)?;
    line.extend_from_slice(b" ")?;
    put_value(&mut line, found)?;
    line.extend_from_slice(b" ")?;
    put_value(&mut line, defined)?;
    Ok(line)
}

fn put_digits(out: &mut Vec<u8>, bytes: &[u8]) -> Result<(), AllocError>
    ensures { OnOk result (out.new.items ≡ out.old.items ++ encode_lower bytes.now) }
{
    let digits = hex::encode(*out.allocator(), bytes)?;
    out.extend_from_slice(digits.as_bytes())
}

/// The line of two different messages with one digest, without its line end.
pub fn apart_line(alloc: Global, first: &[u8], second: &[u8]) -> Result<Vec<u8>, AllocError>
    ensures { IfOk result (λ line. line.items ≡ apart_text first.now second.now) }
{
    let mut line = Vec::from_slice(alloc, b"apart ")?;
    put_digits(&mut line, first)?;
    line.extend_from_slice(b" ")?;
    put_digits(&mut line, second)?;
    Ok(line)
}
