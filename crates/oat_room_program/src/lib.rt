//! The rooms of `run` and `build`: a program is interpreted, or compiled.
#![tactic(auto)]

pub mod build;
pub mod interpret;
mod source_path;
