//! What the operations make of two numbers.
ghost use Rattle.std.specs.Prelude.{◌≡◌, ◌%◌};
ghost use Rattle.oat_check.specs.{shifted_left, shifted_right_signed, signed_quotient, signed_remainder};
ghost use Rattle.oat_check.specs.Operators.{divided, result_of};

use oat_ir::BinOp;

fn shift_left(value: u64, amount: u64) -> u64
    ensures { result ≡ shifted_left value (amount % 64) }
{
    value.wrapping_shl((amount % 64) as u32)
}

fn shift_right_signed(value: u64, amount: u64) -> u64
    ensures { result ≡ shifted_right_signed value (amount % 64) }
{
    (value.cast_signed() >> (amount % 64)).cast_unsigned()
}

fn divide_signed(dividend: u64, divisor: u64) -> Option<u64>
    ensures { result ≡ divided divisor (signed_quotient dividend divisor) }
{
    if divisor == 0 {
        return None;
    }
    let quotient = dividend.cast_signed().wrapping_div(divisor.cast_signed());
    Some(quotient.cast_unsigned())
}

fn remainder_signed(dividend: u64, divisor: u64) -> Option<u64>
    ensures { result ≡ divided divisor (signed_remainder dividend divisor) }
{
    if divisor == 0 {
        return None;
    }
    let remainder = dividend.cast_signed().wrapping_rem(divisor.cast_signed());
    Some(remainder.cast_unsigned())
}

/// None where it divides by 0.
pub fn result_of(op: BinOp, a: u64, b: u64) -> Option<u64>
    ensures { result ≡ result_of op a b }
{
    match op {
        BinOp::Add => Some(a.wrapping_add(b)),
        BinOp::Sub => Some(a.wrapping_sub(b)),
        BinOp::Mul => Some(a.wrapping_mul(b)),
        BinOp::And => Some(a & b),
        BinOp::Or => Some(a | b),
        BinOp::Xor => Some(a ^ b),
        BinOp::Shl => Some(shift_left(a, b)),
        BinOp::Shr => Some(a >> (b % 64)),
        BinOp::Sar => Some(shift_right_signed(a, b)),
        BinOp::Eq => Some(u64::from(a == b)),
        BinOp::Ne => Some(u64::from(a != b)),
        BinOp::Lt => Some(u64::from(a.cast_signed() < b.cast_signed())),
        BinOp::Le => Some(u64::from(a.cast_signed() <= b.cast_signed())),
        BinOp::Ltu => Some(u64::from(a < b)),
        BinOp::Leu => Some(u64::from(a <= b)),
        BinOp::Div => divide_signed(a, b),
        BinOp::Rem => remainder_signed(a, b),
        BinOp::Divu => a.checked_div(b),
        BinOp::Remu => a.checked_rem(b),
    }
}
