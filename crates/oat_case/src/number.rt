ghost use Rattle.std.specs.Prelude.{◌≡◌};
ghost use Rattle.std.specs.List.{list_all};
ghost use Rattle.oat_case.specs.Grammar.{is_hex_digit, address_numeral};
ghost use Rattle.oat_case.specs.Reading.{integer_at};

use crate::fault::{CaseFault, CaseFaultKind};
use oat_lines::{IntegerFault, read_integer, value};

/// The number of 64 bits that digits spell, or digits behind a minus.
pub fn integer(line: u32, word: &[u8]) -> Result<i64, CaseFault>
    ensures { result ≡ integer_at line word.now }
{
    match read_integer(word) {
        Ok(value) => Ok(value),
        Err(IntegerFault::Misspelled) => Err(CaseFault::At(line, CaseFaultKind::Token)),
        Err(IntegerFault::OutOfRange) => Err(CaseFault::At(line, CaseFaultKind::Range)),
    }
}

fn are_hex_digits(word: &[u8]) -> bool
    ensures { result ≡ list_all is_hex_digit word.now }
{
    word.iter().all(|c| c.is_ascii_hexdigit())
}

/// The number of 1 to 16 hexadecimal digits.
pub fn address(word: &[u8]) -> Option<u64>
    ensures { result ≡ address_numeral word.now }
{
    let len = word.len();
    if 1 <= len && len <= 16 && are_hex_digits(word) {
        Some(value(16, word))
    } else {
        None
    }
}
