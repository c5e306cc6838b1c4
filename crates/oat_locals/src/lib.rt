//! Compiled lines whose operands are locals alone: their code, and what it comes to.
#![tactic(auto)]

pub mod laws;
