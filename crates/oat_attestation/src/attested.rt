use oat_build::{Listed, Shaped};
use oat_case::Bytes;
use oat_journal::DeviceEnd;
use oat_verify::Verdict;

/// A program's image, what its device and its outputs told of one run, and what the owner says of that run.
#[derive(Drop)]
pub struct Attested {
    /// The image that was run.
    pub shaped: Shaped,
    pub end: DeviceEnd,
    pub outputs: Listed<i64>,
    /// The blob of each window that sealed, in their order.
    pub blobs: Listed<Bytes>,
    /// The verdict on each of these blobs.
    pub verdicts: Listed<Verdict>,
}
