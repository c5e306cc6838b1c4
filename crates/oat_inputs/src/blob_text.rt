ghost use Rattle.std.specs.Prelude.{◌≡◌, List, ℕ, MatchOption, true, false};
ghost use Rattle.hex.specs.Hex.{is_hex_digit};
ghost use Rattle.oat_inputs.specs.BlobText.{AreDigits, HasDigits, IsBlobText, after_front, before_end};

/// The text without a leading `blob `.
fn digits_on(text: &[u8]) -> &[u8]
    ensures { result.now ≡ after_front text.now }
{
    text.strip_prefix(b"blob ".as_slice()).unwrap_or(text)
}

/// The text without the line end at its end.
fn digits_only(text: &[u8]) -> &[u8]
    ensures { result.now ≡ before_end text.now }
{
    if let Some(digits) = text.strip_suffix(b"\r\n".as_slice()) {
        return digits;
    }
    text.strip_suffix(b"\n".as_slice()).unwrap_or(text)
}

fn is_digit(byte: u8) -> bool
    ensures { result ≡ is_hex_digit byte }
{
    matches!(byte, b'0'..=b'9' | b'A'..=b'F' | b'a'..=b'f')
}

/// Whether these are the digits of bytes.
fn are_digits(text: &[u8]) -> bool
    ensures yes { result ≡ true → AreDigits text.now }
    ensures no { result ≡ false → AreDigits text.now → ⊥ }
{
    for byte in text {
        if !is_digit(*byte) {
            return false;
        }
    }
    text.len() % 2 == 0
}

/// The digits of a blob file, if its text is one.
pub fn blob_digits(text: &[u8]) -> Option<&[u8]>
    ensures { MatchOption result ((bytes : List ℕ) → IsBlobText text.now bytes → ⊥) (λ digits. HasDigits text.now digits.now) }
{
    let digits = digits_only(digits_on(text));
    if are_digits(digits) {
        Some(digits)
    } else {
        None
    }
}
