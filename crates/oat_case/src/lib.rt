//! The case of a run: its session, inputs, data writes and bound on steps, and the text of it.
#![tactic(auto)]

mod case;
mod draft;
mod fault;
pub mod laws;
mod limits;
mod number;
mod reading;

pub use case::{Bytes, Case, Key, Session, Write};
pub use fault::{CaseFault, CaseFaultKind};
pub use reading::read_case;
