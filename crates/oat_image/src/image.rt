use oat_map::{Listed, Map};

/// A word of global data that isn't zero at the start. The word `index` is the
/// eight bytes from `0x4000_0000 + 8 * index` on.
#[derive(Clone, Copy)]
pub struct InitWord {
    pub index: u32,
    pub value: u64,
}

/// What a device is loaded with, and what a verifier knows of it.
#[derive(Drop)]
pub struct Image {
    /// The instruction words from address 0x10000 on.
    pub code: Listed<u32>,
    /// The words of global data that aren't zero, by index.
    pub words: Listed<InitWord>,
    /// Item k is the index of the word of global data that is critical cell k.
    pub cells: Listed<u32>,
    pub map: Map,
}
