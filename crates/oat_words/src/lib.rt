//! The words of a call: the table of commands, and which of them the words are of.
#![tactic(auto)]

mod asked;
mod command;

pub use asked::{command_of, names_of, numbers_of};
pub use command::{Command, USAGE};
