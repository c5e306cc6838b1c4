//! Whether the words of an edge match a pattern.

ghost use Rattle.std.specs.Prelude.{◌≡◌, codes, map};
ghost use Rattle.std.specs.Option.{option_copied};
ghost use Rattle.std.specs.Str.{bytes_eq};
ghost use Rattle.oat_policy.specs.Behind.{rest_behind, rest_behind_sign, rest_behind_word, is_whole};
ghost use Rattle.oat_policy.specs.EdgeWords.{meets, meets_each};
ghost use Rattle.oat_policy.specs.Pieces.{path_word};

use crate::policy::Pattern;
use crate::words::PathWord;

/// What stands behind the front with which a text begins.
fn rest_behind<'a>(front: &[u8], text: &'a [u8]) -> Option<&'a [u8]>
    ensures { option_copied result ≡ rest_behind front.now text.now }
{
    if text.len() < front.len() {
        return None;
    }
    let (head, rest) = text.split_at(front.len());
    if head == front { Some(rest) } else { None }
}

/// What stands behind a sign and a piece, or the text where there is no piece.
fn rest_behind_sign<'a>(sign: &[u8], piece: Option<&[u8]>, text: &'a [u8]) -> Option<&'a [u8]>
    ensures { option_copied result ≡ rest_behind_sign sign.now (option_copied piece.entry) text.now }
{
    let Some(piece) = piece else {
        return Some(text);
    };
    let rest = rest_behind(sign, text)?;
    rest_behind(piece, rest)
}

fn rest_behind_word<'a>(word: &PathWord<'_>, text: &'a [u8]) -> Option<&'a [u8]>
    ensures { option_copied result ≡ rest_behind_word word.now text.now }
{
    let rest = rest_behind(word.place.name, text)?;
    let rest = rest_behind_sign(b".", word.place.label, rest)?;
    rest_behind_sign(b"#", word.number, rest)
}

fn is_word(text: &[u8], word: &PathWord<'_>) -> bool
    ensures { result ≡ is_whole (rest_behind_word word.now text.now) }
{
    match rest_behind_word(word, text) {
        Some(rest) => rest.is_empty(),
        None => false,
    }
}

fn meets(wanted: &[u8], word: &PathWord<'_>) -> bool
    ensures { result ≡ meets wanted.now (path_word word.now) }
{
    wanted == b"*".as_slice() || is_word(wanted, word)
}

/// Whether there are as many words as the pattern has, and each is met.
pub fn meets_each(pattern: &Pattern, words: &[PathWord<'_>]) -> bool
    ensures { result ≡ meets_each pattern.now (map path_word words.now) }
{
    let pattern = pattern.as_slice();
    if pattern.len() != words.len() {
        return false;
    }
    for i in 0..words.len() {
        if !meets(pattern[i].as_slice(), &words[i]) {
            return false;
        }
    }
    true
}
