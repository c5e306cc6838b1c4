//! The program text: which text stands for which program, and how a program is printed.
#![tactic(auto)]

mod bodies;
mod fault;
mod form;
mod global;
mod head;
pub mod laws;
mod outline;
mod pass;
mod printing;
mod put;
mod reading;
mod scope;
mod table;
mod tested;
mod word;

pub use fault::{TextFault, TextFaultKind};
pub use oat_ir::Listed;
pub use printing::print_program;
pub use reading::read_program;
