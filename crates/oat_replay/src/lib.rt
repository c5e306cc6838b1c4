//! The replay of a walk: from the records of one window back to the path.
#![tactic(auto)]

mod cause;
pub mod laws;
mod path;
mod replay;
mod search;
mod turn;

pub use cause::{ReplayCause, WalkFault};
pub use oat_map::{Edge, Path};
pub use path::walk;
pub use replay::Replay;
pub use search::find_row;
pub use turn::Turn;
