//! From steps to runs: what an image shows that follows a source step by step.
#![tactic(auto)]

pub mod laws;
