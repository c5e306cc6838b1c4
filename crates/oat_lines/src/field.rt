ghost use Rattle.std.specs.Prelude.{◌≡◌, length, MatchOption, option_map, option_copied};
ghost use Rattle.oat_lines.specs.Fields.{IsFree, IsFirstByte, cut, one_field, field_and_rest, two_fields, three_fields, four_fields};

fn find(text: &[u8], byte: u8) -> Option<usize>
    ensures { MatchOption result (IsFree byte (length text.now) text.now) (IsFirstByte byte text.now) }
{
    text.iter().position(|b| *b == byte)
}

/// What stands before the first such byte, and what stands after it.
pub fn cut_at(text: &[u8], byte: u8) -> Option<(&[u8], &[u8])>
    ensures { option_map (λ p. (p.0.now, p.1.now)) result ≡ cut byte text.now }
{
    match find(text, byte) {
        Some(end) => Some((&text[..end], &text[end + 1..])),
        None => None,
    }
}

/// The word of a line of just one.
pub fn read_one_field(line: &[u8]) -> Option<&[u8]>
    ensures { option_copied result ≡ one_field line.now }
{
    if !line.is_empty() && cut_at(line, b' ').is_none() {
        Some(line)
    } else {
        None
    }
}

/// The first word of a line, and what stands after the space behind it.
pub fn read_field(line: &[u8]) -> Option<(&[u8], &[u8])>
    ensures { option_map (λ p. (p.0.now, p.1.now)) result ≡ field_and_rest line.now }
{
    let (word, rest) = cut_at(line, b' ')?;
    if word.is_empty() {
        None
    } else {
        Some((word, rest))
    }
}

/// The words of a line of two.
pub fn read_two_fields(line: &[u8]) -> Option<(&[u8], &[u8])>
    ensures { option_map (λ p. (p.0.now, p.1.now)) result ≡ two_fields line.now }
{
    let (first, rest) = read_field(line)?;
    let second = read_one_field(rest)?;
    Some((first, second))
}

/// The words of a line of three.
pub fn read_three_fields(line: &[u8]) -> Option<(&[u8], &[u8], &[u8])>
    ensures { option_map (λ p. (p.0.now, p.1.now, p.2.now)) result ≡ three_fields line.now }
{
    let (first, rest) = read_field(line)?;
    let (second, third) = read_two_fields(rest)?;
    Some((first, second, third))
}

/// The words of a line of four.
pub fn read_four_fields(line: &[u8]) -> Option<(&[u8], &[u8], &[u8], &[u8])>
    ensures { option_map (λ p. (p.0.now, p.1.now, p.2.now, p.3.now)) result ≡ four_fields line.now }
{
    let (first, rest) = read_field(line)?;
    let (second, third, fourth) = read_three_fields(rest)?;
    Some((first, second, third, fourth))
}
