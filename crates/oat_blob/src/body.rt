/// The first checked use that didn't find the cell's last defined value.
#[derive(Clone, Copy)]
pub struct Violation {
    pub cell: u32,
    pub expected: u64,
    pub found: u64,
}

/// A blob's body but for its bits and targets.
#[derive(Clone, Copy)]
pub struct BodyHead {
    pub op: u16,
    pub nonce: [u8; 16],
    /// SHA-256 of the image text.
    pub digest: [u8; 32],
    /// The chain of the window's returns.
    pub hash: [u8; 32],
    pub violation: Option<Violation>,
    /// The window's number, where the session numbers its windows.
    pub serial: Option<u32>,
}
