//! Runs of an image: the bare run and its journal, the window of an operation, and the measured run.
#![tactic(auto)]

mod end;
pub mod laws;

pub use end::DeviceEnd;
pub use oat_measure::StopKind;
