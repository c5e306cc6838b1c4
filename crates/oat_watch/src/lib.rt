//! The run beside its verdict.
#![tactic(auto)]

mod cells;
mod collection;
mod edge;
mod judging;
mod rows;
mod watched;
mod watching;
mod window;
mod windows;

pub use watched::{CheckedUse, Watched, WatchedWindow};
pub use watching::watch;
