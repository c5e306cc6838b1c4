//! Frames of compiled code: how a run of an image stands to the run of its source, and what calls, returns and the start of a run come to.
#![tactic(auto)]

pub mod laws;
