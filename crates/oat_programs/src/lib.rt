//! The programs that files hold, which keep the checking rules, and the cases for their operations.
#![tactic(auto)]

mod programs;

pub use oat_inputs::Case;
pub use programs::{case_for, checked_of, too_large};
