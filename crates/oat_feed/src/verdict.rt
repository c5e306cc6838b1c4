use crate::kept::Kept;
use oat_verify::Cause;

/// What the owner says of a blob, whose path is found again in its records.
#[derive(Clone, Copy)]
pub enum FeedVerdict {
    Accept,
    Refuse(Cause),
}

/// A verdict with what it was given on.
#[derive(Drop)]
pub struct Settled {
    pub verdict: FeedVerdict,
    /// The blob's records; none where the bytes are no blob.
    pub kept: Kept,
    /// The serial number that the blob carries; None where it carries none, or the bytes are no blob.
    pub serial: Option<u32>,
}
