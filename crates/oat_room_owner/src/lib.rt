//! The room of `owner`: a script's devices are enrolled, and the replies to its calls are put.
#![tactic(auto)]

mod enrol;
pub mod opening;
pub mod owner;
mod replies;
mod script;

pub use oat_page::Files;
