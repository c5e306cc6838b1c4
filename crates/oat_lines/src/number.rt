ghost use Rattle.std.specs.Prelude.{◌≡◌, ◌<◌, ◌≤◌, option_map, List, []};
ghost use Rattle.std.specs.List.{list_all};
ghost use Rattle.std.specs.Char.{digit_value};
ghost use Rattle.std.specs.Str.Parse.{digits_value};
ghost use Rattle.oat_lines.specs.Decimal.{is_decimal_digit, numeral_of, decimal_of, capped};
ghost use Rattle.oat_lines.specs.Hexadecimal.{is_hexadecimal_digit, hexadecimal_of};

fn digit(c: u8) -> u64
    ensures { result ≡ digit_value c }
{
    let value = match c {
        b'0'..=b'9' => c - b'0',
        b'A'..=b'Z' => c - b'A' + 10,
        b'a'..=b'z' => c - b'a' + 10,
        _ => 36,
    };
    u64::from(value)
}

/// The number that digits spell in a base of at most 36, and `u64::MAX` in place of any above it.
///
/// A byte that is no digit counts as 36.
pub fn value(radix: u64, word: &[u8]) -> u64
    requires { 0 < radix }
    ensures { result ≡ capped (digits_value radix word.now) }
{
    let mut number: u64 = 0;
    for c in word {
        number = number.saturating_mul(radix).saturating_add(digit(*c));
    }
    number
}

fn are_decimal_digits(word: &[u8]) -> bool
    ensures { result ≡ list_all is_decimal_digit word.now }
{
    word.iter().all(|c| c.is_ascii_digit())
}

fn are_hexadecimal_digits(word: &[u8]) -> bool
    ensures { result ≡ list_all is_hexadecimal_digit word.now }
{
    word.iter().all(|c| matches!(*c, b'0'..=b'9' | b'A'..=b'F'))
}

/// The number that decimal digits spell, with leading zeros or without, and
/// `u64::MAX` in place of any above it.
pub fn read_numeral(word: &[u8]) -> Option<u64>
    ensures { result ≡ option_map capped (numeral_of word.now) }
{
    if !word.is_empty() && are_decimal_digits(word) {
        Some(value(10, word))
    } else {
        None
    }
}

/// The number that decimal digits without leading zeros spell, and `u64::MAX`
/// in place of any above it.
pub fn read_decimal(word: &[u8]) -> Option<u64>
    ensures { result ≡ option_map capped (decimal_of word.now) }
{
    match word {
        [b'0', _, ..] => None,
        _ => read_numeral(word),
    }
}

/// The number that so many upper-case hexadecimal digits spell.
pub fn read_hexadecimal(digits: usize, word: &[u8]) -> Option<u64>
    requires { digits ≤ 16 }
    ensures { result ≡ hexadecimal_of digits word.now }
{
    if word.len() == digits && are_hexadecimal_digits(word) {
        Some(value(16, word))
    } else {
        None
    }
}
