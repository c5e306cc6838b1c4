ghost use Rattle.std.specs.Prelude.{◌≡◌, ◌++◌, ◌==◌, not, length, OnOk};
ghost use Rattle.std.specs.List.{position};
ghost use Rattle.std.specs.Fmt.{decimal};
ghost use Rattle.oat_report.specs.PathLine.{short_digits, address_digits};

use oat_lines::hexadecimal_text;
use std::alloc::AllocError;

pub fn put_number(out: &mut Vec<u8>, number: usize) -> Result<(), AllocError>
    ensures { OnOk result (out.new.items ≡ out.old.items ++ decimal number) }
{
    let digits = format!(in *out.allocator(); "{}", number)?;
    out.extend_from_slice(digits.as_bytes())
}

fn zeros_in_front(digits: &[u8]) -> Option<usize>
    ensures { result ≡ position (λ digit. not (digit == 48)) digits.now }
{
    digits.iter().position(|digit| *digit != b'0')
}

/// The digits without the zeros in front of the last 8 of 16.
pub fn without_zeros(digits: &[u8]) -> &[u8]
    requires { length digits.now ≡ 16 }
    ensures { result.now ≡ short_digits digits.now }
{
    let zeros = zeros_in_front(&digits[..8]);
    &digits[zeros.unwrap_or(8)..]
}

/// Adds an address by 8 digits, or by more where it needs them.
pub fn put_address(out: &mut Vec<u8>, address: u64) -> Result<(), AllocError>
    ensures { OnOk result (out.new.items ≡ out.old.items ++ address_digits address) }
{
    out.extend_from_slice(without_zeros(&hexadecimal_text::<16>(address)))
}
