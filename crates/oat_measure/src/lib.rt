//! The monitor's measurement of a session's windows, one behind the other.
#![tactic(auto)]

mod call;
mod cells;
mod engine;
mod opening;
mod shelf;
mod states;
mod stop;

pub use call::MonitorCall;
pub use engine::Engine;
pub use opening::Opening;
pub use shelf::Shelf;
pub use states::{Begun, Ended, Measuring, Sealed, Unmeasured};
pub use stop::StopKind;
