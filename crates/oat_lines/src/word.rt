ghost use Rattle.std.specs.Prelude.{◌≡◌, ◌<◌, ◌≤◌, ◌∷◌, [], length, MatchOption, IfSome};
ghost use Rattle.std.specs.List.{position_or_len};
ghost use Rattle.std.specs.Option.{option_copied, option_map};
ghost use Rattle.oat_lines.specs.Lines.{is_blank, is_solid, words_of, sole, triple};

fn is_blank_byte(byte: u8) -> bool
    ensures { result ≡ is_blank byte }
{
    byte == b' ' || byte == b'\t'
}

fn word_start(line: &[u8]) -> usize
    ensures place { result ≡ position_or_len is_solid line.now }
    ensures within { result ≤ length line.now }
{
    for (i, byte) in line.iter().enumerate() {
        if !is_blank_byte(*byte) {
            return i;
        }
    }
    line.len()
}

fn word_end(line: &[u8]) -> usize
    ensures place { result ≡ position_or_len is_blank line.now }
    ensures within { result ≤ length line.now }
{
    for (i, byte) in line.iter().enumerate() {
        if is_blank_byte(*byte) {
            return i;
        }
    }
    line.len()
}

/// The first word of a line, and what follows it.
pub fn first_word(line: &[u8]) -> Option<(&[u8], &[u8])>
    ensures words { MatchOption result (words_of line.now ≡ []) (λ p. words_of line.now ≡ p.0.now ∷ words_of p.1.now) }
    ensures has_bytes { IfSome result (λ p. 0 < length p.0.now) }
{
    let (_, rest) = line.split_at(word_start(line));
    if rest.is_empty() {
        return None;
    }
    Some(rest.split_at(word_end(rest)))
}

/// The word of a line with just one.
pub fn sole_word(line: &[u8]) -> Option<&[u8]>
    ensures { option_copied result ≡ sole (words_of line.now) }
{
    let (word, rest) = first_word(line)?;
    match first_word(rest) {
        None => Some(word),
        Some(_) => None,
    }
}

/// The words of a line with just three.
pub fn three_words(line: &[u8]) -> Option<(&[u8], &[u8], &[u8])>
    ensures { option_map (λ p. (p.0.now, p.1.now, p.2.now)) result ≡ triple (words_of line.now) }
{
    let (first, rest) = first_word(line)?;
    let (second, rest) = first_word(rest)?;
    let third = sole_word(rest)?;
    Some((first, second, third))
}
