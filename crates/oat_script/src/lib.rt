//! Scripts of an owner: its devices, and the challenges and answers that are put to it.
#![tactic(auto)]

mod draft;
mod fault;
mod file;
pub mod laws;
mod reading;
mod script;
mod word;

pub use fault::{ScriptFault, ScriptFaultKind};
pub use file::FileName;
pub use reading::read_script;
pub use script::{Script, ScriptDevice};
