ghost use Rattle.std.specs.Prelude.{◌≡◌, ◌<◌, ◌≤◌, ◌∷◌, length};
ghost use Rattle.std.specs.List.{position_or_len};
ghost use Rattle.std.specs.Str.Lines.{strip_carriage_return};
ghost use Rattle.oat_lines.specs.Lines.{is_line_feed, lines_of};

fn without_return(line: &[u8]) -> &[u8]
    ensures { result.now ≡ strip_carriage_return line.now }
{
    let end = line.len();
    if end > 0 && line[end - 1] == b'\r' {
        &line[..end - 1]
    } else {
        line
    }
}

fn line_end(text: &[u8]) -> usize
    ensures place { result ≡ position_or_len is_line_feed text.now }
    ensures within { result ≤ length text.now }
{
    for (i, byte) in text.iter().enumerate() {
        if *byte == b'\n' {
            return i;
        }
    }
    text.len()
}

/// The first line without its end, and the text after it.
pub fn first_line(text: &[u8]) -> (&[u8], &[u8])
    requires { 0 < length text.now }
    ensures lines { lines_of text.now ≡ result.0.now ∷ lines_of result.1.now }
    ensures shorter { length result.1.now < length text.now }
{
    let end = line_end(text);
    if end < text.len() {
        let (line, _) = text.split_at(end);
        let (_, rest) = text.split_at(end + 1);
        (without_return(line), rest)
    } else {
        (text, &[])
    }
}
