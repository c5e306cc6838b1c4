//! The control-flow map of an image: functions, blocks, rows, and edges of a path.
#![tactic(auto)]

mod edge;
mod index;
pub mod laws;
mod map;
mod name;
mod row;
mod trap;

pub use edge::{Edge, Path};
pub use index::RowIndex;
pub use map::{Block, Function, Map};
pub use name::Name;
pub use oat_list::Listed;
pub use oat_steps::Steps;
pub use row::Row;
pub use trap::TrapKind;
