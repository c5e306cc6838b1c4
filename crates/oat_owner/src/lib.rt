//! An owner's challenges to many devices: each is accepted at most once.
#![tactic(auto)]

mod call;
mod challenge;
mod device;
mod frame;
pub mod laws;
mod owner;

pub use call::{OwnerCall, OwnerReply};
pub use challenge::Challenge;
pub use device::{Known, OwnerFault, OwnerRefusal};
pub use frame::{AnswerRef, FrameFault, answer_frame, challenge_frame, read_answer};
pub use owner::{Answer, AnswerCause, IssueFault, Issued, Owner};
