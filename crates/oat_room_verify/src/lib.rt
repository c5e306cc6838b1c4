//! The rooms of `verify` and `policy`: a blob is judged as its digits are decoded, and no path is kept.
#![tactic(auto)]

mod feeding;
pub mod policy;
mod report;
pub mod verify;
