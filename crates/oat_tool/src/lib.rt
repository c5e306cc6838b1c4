//! The program's one call: it reads the words, loads the files that they name, and puts the answer.
//!
//! Three things are kept apart. What is *defined* for a list of words follows from what the files hold
//! alone. Which outcome a call *sets out for* depends on whether a load failed or memory was wanting
//! besides. And *how it was put* is what two outputs took of it.
//!
//! A command is one room: its words and the limits of its files in the table of commands, what it
//! answers to them, its work and its laws. Each stands in a crate below this one, which joins them.
#![tactic(auto)]

pub mod laws;
mod top_call;

pub use top_call::run;
