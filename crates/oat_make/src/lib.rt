//! The drill of a number: the text of its program, and its case.
#![tactic(auto)]

mod case;
mod draws;
pub mod laws;
mod program;

pub use case::make_case;
pub use program::make_program;
