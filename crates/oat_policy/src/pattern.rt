ghost use Rattle.std.specs.Prelude.{◌≡◌, ℕ, IfOk};
ghost use Rattle.std.specs.List.{list_all};
ghost use Rattle.oat_report.specs.{Gives, words_of};
ghost use Rattle.oat_policy.specs.Reading.{is_pattern_byte, is_pattern_word, is_pattern, parts_of, pattern_at, patterns_at, limit_at};

use crate::fault::{PolicyFault, PolicyFaultKind};
use crate::policy::Pattern;
use oat_lines::{cut_at, first_word, read_numeral};
use oat_report::Listed;
use std::alloc::{AllocError, Global};

fn is_pattern_byte(c: u8) -> bool
    ensures { result ≡ is_pattern_byte c }
{
    c.is_ascii_alphanumeric() || c == b'_' || c == b'#' || c == b'.' || c == b'-'
}

fn are_pattern_bytes(word: &[u8]) -> bool
    ensures { result ≡ list_all is_pattern_byte word.now }
{
    word.iter().all(|c| is_pattern_byte(*c))
}

fn is_pattern_word(word: &[u8]) -> bool
    ensures { result ≡ is_pattern_word word.now }
{
    word == b"*".as_slice() || 1 <= word.len() && word.len() <= 100 && are_pattern_bytes(word)
}

fn are_pattern_words(words: &[Listed<u8>]) -> bool
    ensures { result ≡ list_all is_pattern_word words.now }
{
    words.iter().all(|word| is_pattern_word(word.as_slice()))
}

fn is_pattern(words: &[Listed<u8>]) -> bool
    ensures { result ≡ is_pattern words.now }
{
    2 <= words.len() && words.len() <= 4 && are_pattern_words(words)
}

/// The parts of a word between its colons.
fn parts_of(alloc: Global, word: &[u8]) -> Result<Vec<Listed<u8>>, AllocError>
    ensures { IfOk result (λ parts. parts.items ≡ parts_of word.now) }
{
    let mut parts = Vec::new(alloc);
    let mut rest = word;
    'colons: while let Some((part, after)) = cut_at(rest, b':') {
        parts.push(Listed::from_vec(Vec::from_slice(alloc, part)?))?;
        rest = after;
    }
    parts.push(Listed::from_vec(Vec::from_slice(alloc, rest)?))?;
    Ok(parts)
}

/// The pattern that a word spells.
#[tactic(auto, unfolding(crate::specs::Reading::pattern_at))]
pub fn pattern_at(alloc: Global, line: u32, word: &[u8]) -> Result<Pattern, PolicyFault>
    ensures { Gives (λ pattern. pattern) result (pattern_at line word.now) }
{
    let parts = parts_of(alloc, word)?;
    if !is_pattern(parts.as_slice()) {
        return Err(PolicyFault::At(line, PolicyFaultKind::Token));
    }
    Ok(Listed::from_vec(parts))
}

/// The patterns that the words of a line spell.
pub fn patterns_at(alloc: Global, line: u32, words: &[u8]) -> Result<Vec<Pattern>, PolicyFault>
    ensures { Gives (λ patterns. patterns.items) result (patterns_at line (words_of words.now)) }
{
    let mut patterns = Vec::new(alloc);
    let mut rest = words;
    'words: while let Some((word, after)) = first_word(rest) {
        patterns.push(pattern_at(alloc, line, word)?)?;
        rest = after;
    }
    Ok(patterns)
}

/// The number of a `most` rule.
#[tactic(auto, unfolding(crate::specs::Reading::limit_at))]
pub fn limit_at(line: u32, word: &[u8]) -> Result<u32, PolicyFault>
    ensures { result ≡ limit_at line word.now }
{
    let limit = read_numeral(word).ok_or(PolicyFault::At(line, PolicyFaultKind::Number))?;
    if limit > 4_194_304 {
        return Err(PolicyFault::At(line, PolicyFaultKind::Number));
    }
    Ok(limit as u32)
}
