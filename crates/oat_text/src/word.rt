//! Words of a line, and the values that they spell.

ghost use Rattle.std.specs.Prelude.{◌≡◌, ◌+◌, ◌≤◌, IfSome, length, slice_get, option_copied, option_map};
ghost use Rattle.oat_lines.specs.Lines.{words_of};
ghost use Rattle.oat_text.specs.Outline.{name_first, id_first};
ghost use Rattle.oat_text.specs.Readings.{params_of, ty_of, local_of, parameter_of, i64_of, count_of, begins_reference, name_at, local_in};

use oat_ir::{Local, Ty};
use oat_lines::{cut_at, first_word, read_integer, read_numeral};
use oat_map::Name;

/// The word of a line at this place, from 0.
pub fn word_at(line: &[u8], place: usize) -> Option<&[u8]>
    ensures { option_copied result ≡ slice_get (words_of line.now) place }
{
    let mut rest = line;
    let mut left = place;
    'words: while let Some((word, after)) = first_word(rest) {
        if left == 0 {
            return Some(word);
        }
        left -= 1;
        rest = after;
    }
    None
}

/// The number of parameters that the type of a reference spells.
pub fn params_in(word: &[u8]) -> Option<u8>
    ensures { result ≡ params_of word.now }
{
    if word == b"fn/0".as_slice() {
        Some(0)
    } else if word == b"fn/1".as_slice() {
        Some(1)
    } else if word == b"fn/2".as_slice() {
        Some(2)
    } else if word == b"fn/3".as_slice() {
        Some(3)
    } else if word == b"fn/4".as_slice() {
        Some(4)
    } else {
        None
    }
}

pub fn ty_in(word: &[u8]) -> Option<Ty>
    ensures { result ≡ ty_of word.now }
{
    if word == b"i64".as_slice() {
        Some(Ty::I64)
    } else {
        let params = params_in(word)?;
        Some(Ty::Fn(params))
    }
}

fn local_of(name: &[u8], ty: &[u8]) -> Option<Local>
    ensures { result ≡ local_of name.now ty.now }
{
    let name = Name::new(name)?;
    let ty = ty_in(ty)?;
    Some(Local { name, ty })
}

/// The local that a parameter spells.
pub fn parameter_in(word: &[u8]) -> Option<Local>
    ensures { result ≡ parameter_of word.now }
{
    let (name, ty) = cut_at(word, b':')?;
    local_of(name, ty)
}

/// The number of 64 bits with a sign.
#[tactic(auto, unfolding(oat_lines::specs::Integer::read_as_integer))]
pub fn i64_in(word: &[u8]) -> Option<i64>
    ensures { result ≡ i64_of word.now }
{
    match read_integer(word) {
        Ok(number) => Some(number),
        Err(_) => None,
    }
}

/// The number from 1 to `most`.
pub fn count_in(most: u32, word: &[u8]) -> Option<u32>
    ensures count { result ≡ count_of most word.now }
    ensures within { IfSome result (λ count. count ≤ most) }
{
    match read_numeral(word) {
        Some(number) => {
            if 1 <= number && number <= u64::from(most) {
                Some(number as u32)
            } else {
                None
            }
        }
        None => None,
    }
}

pub fn is_reference(word: &[u8]) -> bool
    ensures { result ≡ begins_reference word.now }
{
    word.starts_with(b"fn/")
}

/// The name at this place of a line.
pub fn name_at(words: &[u8], place: usize) -> Option<Name>
    ensures { result ≡ name_at (words_of words.now) place }
{
    Name::new(word_at(words, place)?)
}

/// The local that the first two words of a line give.
pub fn local_at(words: &[u8]) -> Option<Local>
    ensures { result ≡ local_in (words_of words.now) }
{
    let name = word_at(words, 0)?;
    let ty = word_at(words, 1)?;
    local_of(name, ty)
}

/// The name that stands first, and the words behind it.
pub fn name_first(words: &[u8]) -> Option<(Name, &[u8])>
    ensures first { option_map (λ p. (p.0, words_of p.1.now)) result ≡ name_first (words_of words.now) }
    ensures behind { IfSome result (λ p. length (words_of p.1.now) + 1 ≡ length (words_of words.now)) }
{
    let (word, rest) = first_word(words)?;
    let name = Name::new(word)?;
    Some((name, rest))
}

/// The number of an operation that stands first, and the words behind it.
pub fn id_first(words: &[u8]) -> Option<(u16, &[u8])>
    ensures first { option_map (λ p. (p.0, words_of p.1.now)) result ≡ id_first (words_of words.now) }
    ensures behind { IfSome result (λ p. length (words_of p.1.now) + 1 ≡ length (words_of words.now)) }
{
    let (word, rest) = first_word(words)?;
    let id = count_in(65_535, word)?;
    Some((id as u16, rest))
}
