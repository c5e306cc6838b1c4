//! The code of a program: items with labels, and a mark for each row of the map.
#![tactic(auto)]

mod access;
mod binary;
mod blocks;
mod calls;
mod fault;
mod frames;
mod generation;
mod globals;
mod items;
pub mod laws;
mod leaves;
mod lines;
mod moves;

pub use fault::GenFault;
pub use generation::generate;
pub use globals::GlobalPlace;
