ghost use Rattle.std.specs.Prelude.{◌≡◌, ◌<◌, ◌≤◌, length};
ghost use Rattle.hex.specs.Hex.{encode_lower};
ghost use Rattle.oat_lines.specs.Hexadecimal.{hexadecimal_digit, hexadecimal};

fn digit_character(digit: u8) -> u8
    requires { digit < 16 }
    ensures { result ≡ hexadecimal_digit digit }
{
    if digit < 10 {
        b'0' + digit
    } else {
        b'A' + (digit - 10)
    }
}

/// The last `N` upper-case hexadecimal digits of a number.
pub fn hexadecimal_text<const N: usize>(number: u64) -> [u8; N]
    ensures { result ≡ hexadecimal N number }
{
    let mut digits = [b'0'; N];
    let mut rest = number;
    let mut place = N;
    while place > 0 {
        place -= 1;
        digits[place] = digit_character((rest % 16) as u8);
        rest /= 16;
    }
    digits
}

/// The lower-case digits of at most 32 bytes, two for each, in front of `buffer`.
pub fn lower_digits<'a>(bytes: &[u8], buffer: &'a mut [u8; 64]) -> &'a [u8]
    requires { length bytes.now ≤ 32 }
    ensures { result.now ≡ encode_lower bytes.now }
{
    let digits = &mut buffer[..2 * bytes.len()];
    match hex::encode_to_slice(bytes, digits) {
        Ok(()) => digits,
        Err(_) => unreachable!(),
    }
}
