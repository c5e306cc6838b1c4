//! The room of `drill`: the program and the case that are made from a number are attested.
#![tactic(auto)]

pub mod drill;
pub mod laws;
