//! Programs of the source language: globals, functions, blocks, and the runs that they have.
#![tactic(auto)]

mod args;
mod distinct;
mod func;
mod indices;
mod instr;
pub mod laws;
mod program;
mod size;
mod source;
mod well_formed;

pub use args::Args;
pub use func::{BlockIr, Func, Local, Role, Ty};
pub use instr::{BinOp, Instr, Term};
pub use oat_map::{Listed, TrapKind};
pub use program::{GlobalItem, Program};
pub use source::{CriticalLoad, SourceEdge, SourceEnd, SourceSite};
