//! Compiled lines on global data, on cells and on references, and the groups that begin and end an operation: from where the source is to where its step leads.
#![tactic(auto)]

pub mod laws;
