//! The verdict on a blob that comes in pieces, whose memory grows by the record bytes that came.
#![tactic(auto)]

mod feed;
mod fields;
mod intake;
mod judging;
mod kept;
mod places;
mod verdict;

pub use feed::Feed;
pub use kept::Kept;
pub use verdict::{FeedVerdict, Settled};
