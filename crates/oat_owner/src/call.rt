use crate::owner::{Answer, IssueFault, Issued};
use oat_case::Bytes;

/// What an owner is called to do.
#[derive(Drop)]
pub enum OwnerCall {
    /// To ask a device for an operation, under a nonce.
    Issue {
        device: u32,
        op: u16,
        nonce: [u8; 16],
    },
    /// To judge what came in.
    Answer(Bytes),
}

/// What an owner replies to a call.
#[derive(Drop)]
pub enum OwnerReply {
    Issue(Result<Issued, IssueFault>),
    Answer(Answer),
}
