ghost use Rattle.std.specs.Prelude.{◌≡◌, pos, neg_ℤ};
ghost use Rattle.std.specs.Str.Parse.{starts_with_minus};
ghost use Rattle.oat_lines.specs.Integer.{within_i64, read_as_integer};

use crate::number::read_numeral;

/// Why a word is no integer of 64 bits.
#[derive(Clone, Copy)]
pub enum IntegerFault {
    /// It isn't digits, or digits behind a minus.
    Misspelled,
    /// The number doesn't fit.
    OutOfRange,
}

fn positive(size: u64) -> Result<i64, IntegerFault>
    ensures { result ≡ within_i64 (pos size) }
{
    if size < 1 << 63 {
        Ok(size as i64)
    } else {
        Err(IntegerFault::OutOfRange)
    }
}

fn negative(size: u64) -> Result<i64, IntegerFault>
    ensures { result ≡ within_i64 (neg_ℤ (pos size)) }
{
    if size < 1 << 63 {
        Ok(-(size as i64))
    } else if size == 1 << 63 {
        Ok(i64::MIN)
    } else {
        Err(IntegerFault::OutOfRange)
    }
}

fn is_negative(word: &[u8]) -> bool
    ensures { result ≡ starts_with_minus word.now }
{
    !word.is_empty() && word[0] == b'-'
}

/// The number of 64 bits that digits spell, or digits behind a minus, with leading zeros or without.
pub fn read_integer(word: &[u8]) -> Result<i64, IntegerFault>
    ensures { result ≡ read_as_integer word.now }
{
    if is_negative(word) {
        let (_, digits) = word.split_at(1);
        match read_numeral(digits) {
            Some(size) => negative(size),
            None => Err(IntegerFault::Misspelled),
        }
    } else {
        match read_numeral(word) {
            Some(size) => positive(size),
            None => Err(IntegerFault::Misspelled),
        }
    }
}
