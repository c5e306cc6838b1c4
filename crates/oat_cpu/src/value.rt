// The numbers that instructions compute.
ghost use Rattle.std.specs.Prelude.{◌≡◌, ◌*◌, ◌%◌};
ghost use Rattle.oat_a64.specs.{unsigned_quotient, signed_quotient, shifted_left, shifted_right_signed};
ghost use Rattle.oat_a64.specs.Step.{with_bits};

pub(crate) fn divide(dividend: u64, divisor: u64) -> u64
    ensures { result ≡ unsigned_quotient dividend divisor }
{
    dividend.checked_div(divisor).unwrap_or(0)
}

pub(crate) fn divide_signed(dividend: u64, divisor: u64) -> u64
    ensures { result ≡ signed_quotient dividend divisor }
{
    if divisor == 0 {
        return 0;
    }
    dividend
        .cast_signed()
        .wrapping_div(divisor.cast_signed())
        .cast_unsigned()
}

pub(crate) fn shift_left(value: u64, amount: u32) -> u64
    ensures { result ≡ shifted_left value amount }
{
    if amount < 64 { value << amount } else { 0 }
}

// The amount counts modulo 64.
pub(crate) fn shift_signed(value: u64, amount: u64) -> u64
    ensures { result ≡ shifted_right_signed value (amount % 64) }
{
    (value.cast_signed() >> (amount % 64)).cast_unsigned()
}

const QUARTER: u64 = 0x1_0000;

const HALF: u64 = QUARTER * QUARTER;

// The bits as a quarter, counted from the lowest.
pub(crate) fn quarter(number: u8, bits: u16) -> u64
    ensures { result ≡ shifted_left bits (16 * number) }
{
    shift_left(u64::from(bits), 16 * u32::from(number))
}

// The value with another quarter, counted from the lowest.
pub(crate) fn put_quarter(value: u64, quarter: u8, bits: u16) -> u64
    ensures { result ≡ with_bits value (16 * quarter) bits }
{
    let bits = u64::from(bits);
    match quarter {
        0 => value / QUARTER * QUARTER + bits,
        1 => value / HALF * HALF + bits * QUARTER + value % QUARTER,
        2 => value / HALF / QUARTER * QUARTER * HALF + bits * HALF + value % HALF,
        3 => bits * QUARTER * HALF + value % (QUARTER * HALF),
        _ => value,
    }
}
