ghost use Rattle.std.specs.Prelude.{◌≡◌, List, ℕ, Result};
ghost use Rattle.oat_lines.specs.declared.fault.Fault.TheVariants.{Memory};
ghost use Rattle.oat_lines.specs.Faults.{at};

use std::alloc::{AllocError, AllocFailed};
use std::fmt;

/// What can be wrong with a line of some form of text.
pub trait LineFault: Copy {
    ghost word: { Self → List ℕ };

    /// The word for it in a refusal.
    fn word(self) -> &'static str
        ensures { result.now ≡ word self };
}

/// Why a text isn't of its form.
#[derive(Clone, Copy)]
pub enum Fault<K> {
    /// The number of its first bad line, from 1, and what is wrong there.
    At(u32, K),
    /// There was no memory.
    Memory,
}

/// The outcome of reading the line with this number.
pub fn at_line<T, K: LineFault>(line: u32, outcome: Result<T, K>) -> Result<T, Fault<K>>
    ensures { result ≡ at line outcome }
{
    match outcome {
        Ok(value) => Ok(value),
        Err(kind) => Err(Fault::At(line, kind)),
    }
}

impl<K> From<AllocError> for Fault<K> {
    ghost from_gives = { λ _ e. e ≡ Memory };

    fn from(_e: AllocError) -> Fault<K> {
        Fault::Memory
    }
}

impl<K, T: Drop> From<AllocFailed<T>> for Fault<K> {
    ghost from_gives = { λ _ e. e ≡ Memory };

    fn from(_e: AllocFailed<T>) -> Fault<K> {
        Fault::Memory
    }
}

/// The line and the word of the kind, as a refusal says them; `Memory` where there was none.
impl<K: LineFault> fmt::Display for Fault<K> {
    ghost use Rattle.std.specs.Prelude.{Some};
    ghost use Rattle.oat_lines.specs.FaultText.{fault_text};

    ghost output = { λ fault. Some (fault_text K.word fault) };

    fn fmt<W: fmt::Write>(&self, f: &mut fmt::Formatter<W>) -> fmt::Result {
        match *self {
            Fault::At(line, kind) => write!(f, "{line} {}", kind.word()),
            Fault::Memory => write!(f, "Memory"),
        }
    }
}
