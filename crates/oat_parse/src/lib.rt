//! The first reading of a text of the structured language: its tree, or its first fault.
#![tactic(auto)]

mod body;
mod fault;
mod function;
mod heading;
mod limits;
mod opened;
mod operand;
mod place;
mod reader;
mod reading;
mod step;
mod words;

pub use fault::{ParseFault, ParseKind};
pub use reader::Parsed;
pub use reading::parse;
