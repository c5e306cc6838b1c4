//! The meaning of a program: its run on inputs, step by step, and what that shows of the calls of one operation.
#![tactic(auto)]

mod activation;
mod arithmetic;
mod callers;
mod globals;
mod interpreter;
mod lines;
mod record;
mod source;

pub use arithmetic::result_of;
pub use oat_ir::{CriticalLoad, SourceEdge, SourceEnd, SourceSite};
pub use source::Source;
