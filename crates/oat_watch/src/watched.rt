use oat_chain::Clash;
use oat_journal::DeviceEnd;
use oat_map::Path;
use oat_verify::Verdict;

/// A use of a critical cell: what it found, and what the cell was last defined as.
#[derive(Clone, Copy)]
pub struct CheckedUse {
    pub cell: u32,
    pub found: u64,
    pub defined: u64,
}

/// What a run did in a window that sealed, beside the verdict on its blob.
#[derive(Drop)]
pub struct WatchedWindow {
    /// The executed path.
    pub path: Path,
    /// Where the returns went.
    pub returns: Vec<u64>,
    pub uses: Vec<CheckedUse>,
    pub verdict: Verdict,
    /// The clash of the returns and those of the accepted path, where they differ.
    pub apart: Option<Clash>,
}

/// A run, with its windows that sealed in their order.
#[derive(Drop)]
pub struct Watched {
    pub end: DeviceEnd,
    pub outputs: Vec<i64>,
    pub windows: Vec<WatchedWindow>,
}
