//! The device: the run of an image, with the monitor that measures it.
#![tactic(auto)]

mod bare;
mod call;
mod course;
mod device;
mod entry;
pub mod laws;
mod monitor;
mod start;
mod writes;

pub use device::Device;
pub use entry::Entry;
pub use oat_a64::{Inst, decode};
pub use oat_journal::{DeviceEnd, StopKind};
pub use oat_measure::MonitorCall;
pub use oat_shape::Image;
pub use start::first_words;
