//! The A64 subset of the device: its instructions, their words and what they do.
#![tactic(auto)]

mod code;
mod event;
mod inst;
pub mod laws;
mod places;
pub mod step_laws;
mod words;

pub use code::{CODE_BASE, branch_target, instruction_at, word_at};
pub use event::{Event, FaultKind};
pub use inst::Inst;
pub use words::{decode, encode};
