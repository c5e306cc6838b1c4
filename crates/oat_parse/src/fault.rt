//! What can be wrong with a text in the first reading.

ghost use Rattle.std.specs.Prelude.{◌≡◌};
ghost use Rattle.oat_parse.specs.declared.fault.ParseFault.TheVariants.{Memory};

use std::alloc::{AllocError, AllocFailed};

/// What is wrong with a word.
#[derive(Clone, Copy, PartialEq, Eq)]
pub enum ParseKind {
    /// It is none.
    Token,
    /// It is a number out of its range.
    Number,
    /// It nests too deep, or is one node too many of its statement.
    Deep,
    /// No text goes on with it, or the text ends inside an item.
    Expected,
}

/// Why a text has no tree.
#[derive(Clone, Copy, PartialEq, Eq)]
pub enum ParseFault {
    /// The line of the first word with which something is wrong, from 1.
    At { line: u32, kind: ParseKind },
    /// There was no memory.
    Memory,
}

impl From<AllocError> for ParseFault {
    ghost from_gives = { λ _ e. e ≡ Memory };

    fn from(_e: AllocError) -> ParseFault {
        ParseFault::Memory
    }
}

impl<T: Drop> From<AllocFailed<T>> for ParseFault {
    ghost from_gives = { λ _ e. e ≡ Memory };

    fn from(_e: AllocFailed<T>) -> ParseFault {
        ParseFault::Memory
    }
}
