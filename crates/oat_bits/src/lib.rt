//! Bit fields of words of 32 bits, and packed lists of bits.
#![tactic(auto)]

mod fault;
mod field;
pub mod laws;
mod packed_bits;

pub use fault::BitsFault;
pub use field::Field;
pub use packed_bits::{PackedBits, is_filled};
