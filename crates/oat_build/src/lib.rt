//! Checked programs become images that run as they do.
#![tactic(auto)]

mod addresses;
mod compiler;
mod data;
mod fault;
mod image;
pub mod laws;
mod names;
mod references;
mod rows;
mod symbols;

pub use compiler::build;
pub use fault::BuildFault;
pub use oat_ir::{BlockIr, Func, Instr, Program, Role};
pub use oat_list::Listed;
pub use oat_map::Name;
pub use oat_shape::Shaped;
