//! Compiled programs: each step of a checked program is matched by the instructions of its line.
#![tactic(auto)]

pub mod laws;
