//! The rooms of `device` and `trace`: the measured run of a case on an image.
#![tactic(auto)]

pub mod device;
pub mod trace;
