//! The laws that join device runs and verdicts.
#![tactic(auto)]

pub mod laws;
