//! The processor: one instruction at a time.
#![tactic(auto)]

mod access;
mod act;
mod control;
mod cpu;
mod registers;
mod sums;
mod value;

pub use cpu::Cpu;
pub use oat_a64::{Event, FaultKind};
