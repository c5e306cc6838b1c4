//! Marks of rows become notes and the rows' groups.
#![tactic(auto)]

mod cells;
mod elements;
mod fault;
mod groups;
mod instructions;
mod instrumentation;

pub use fault::InstrFault;
pub use instrumentation::instrument;
