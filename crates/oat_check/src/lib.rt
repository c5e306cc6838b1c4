//! Which programs are checked, and what a checked program means: its steps, its runs, and what they keep.
#![tactic(auto)]

mod checked;
mod fault;
mod first_fault;
pub mod laws;
mod line_rules;
mod types;

pub use checked::{Checked, check};
pub use fault::{CheckFault, CheckKind, CheckRefusal};
pub use oat_ir::{Local, Term, Ty};
