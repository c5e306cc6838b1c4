//! What all commands share: the files that are loaded, what work ends with, and how its page is put.
//!
//! A page is a text in pieces, each made as it is put, and a last text for the second output. It speaks of no command.
#![tactic(auto)]

mod files;
mod limits;
mod page;
mod pieces;
mod put;
mod texts;

pub use files::{File, load_all, load_one};
pub use limits::{BLOB_LIMIT, CASE_LIMIT, IMAGE_LIMIT, POLICY_LIMIT, PROGRAM_LIMIT, SCRIPT_LIMIT};
pub use oat_world::{Files, Sink, SinkFault};
pub use page::{Ended, Halt, Page, Stop};
pub use pieces::{Pieces, Then, Whole};
pub use put::{close, finish, put_all, put_pieces, say, say_halt, say_starved, say_stop};
pub use texts::{no_operation, refused};
