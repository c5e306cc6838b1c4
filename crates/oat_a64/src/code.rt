ghost use Rattle.std.specs.Prelude.{◌≡◌};
ghost use Rattle.oat_a64.specs.Step.{branch_target, instruction_at, word_at};

use crate::inst::Inst;
use crate::words::decode;

/// The address of the first word of code.
pub const CODE_BASE: u64 = 0x10000;

/// The word of code at an address, which has to be a multiple of 4.
pub fn word_at(code: &[u32], address: u64) -> Option<u32>
    ensures { result ≡ word_at code.now address }
{
    if !address.is_multiple_of(4) {
        return None;
    }
    let index = address.checked_sub(CODE_BASE)? / 4;
    code.get(index as usize).copied()
}

/// The instruction at an address of code.
pub fn instruction_at(code: &[u32], address: u64) -> Option<Inst>
    ensures { result ≡ instruction_at code.now address }
{
    match word_at(code, address) {
        Some(word) => decode(word),
        None => None,
    }
}

/// Where a branch at `pc` leads, whose offset counts words.
pub fn branch_target(pc: u64, offset: i32) -> u64
    ensures { result ≡ branch_target pc offset }
{
    let bytes = 4 * u64::from(offset.unsigned_abs());
    if offset < 0 {
        pc.wrapping_sub(bytes)
    } else {
        pc.wrapping_add(bytes)
    }
}
