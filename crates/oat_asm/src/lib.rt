//! Items of code: instructions, labels, branches to labels, marks and notes of rows, and the words that they become.
#![tactic(auto)]

mod assembled;
mod assembler;
mod branch_form;
mod item;
mod label_places;
pub mod laws;
mod mark;
mod note;
mod passes;
mod words;

pub use assembled::{AsmFault, Assembled, LabelAt, NoteAt};
pub use assembler::assemble;
pub use branch_form::BranchForm;
pub use item::{Item, Items};
pub use mark::Mark;
pub use note::Note;
pub use oat_a64::Inst;
pub use words::puts;
