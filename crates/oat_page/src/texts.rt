ghost use Rattle.std.specs.Prelude.{◌≡◌, ℕ, List, Some};
ghost use Rattle.oat_page.specs.Answer.{no_operation};
ghost use Rattle.oat_page.specs.Works.{IsRefusal, RefusesWith};

use crate::page::Stop;
use std::alloc::{AllocError, Global};
use std::fmt::Display;

/// An input is refused, for a reason in the words of the output formats.
pub fn refused<R: Display + Drop>(alloc: Global, file: &str, reason: R) -> Result<Stop, AllocError>
    ensures { (text : List ℕ) → R.output reason ≡ Some text → IsRefusal file.now text result }
{
    let line = format!(in alloc; "refused {file} {reason}\n")?;
    Ok(Stop::Refused(line.into_bytes()))
}

/// A case is refused, for an operation that the image doesn't have.
pub fn no_operation(alloc: Global, file: &str, op: u16) -> Result<Stop, AllocError>
    ensures { RefusesWith (no_operation file.now op) result }
{
    let line = format!(in alloc; "refused {file} NoOperation {op}\n")?;
    Ok(Stop::Refused(line.into_bytes()))
}
