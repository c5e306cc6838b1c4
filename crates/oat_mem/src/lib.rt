//! The device's data memory: the global data and the stack, by address.
#![tactic(auto)]

pub mod laws;
mod memory;
mod region;

pub use memory::Memory;
pub use region::{GLOBAL_BASE, fits};
