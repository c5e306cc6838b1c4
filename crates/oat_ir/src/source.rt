//! What a run of a program shows: its end, its path, and what it loaded from cells.

use oat_map::TrapKind;

/// How a run of a program ends.
#[derive(Clone, Copy)]
pub enum SourceEnd {
    Halted,
    Trap(TrapKind),
    /// The bound on the number of steps was met first.
    OutOfSteps,
}

/// A place of a program.
#[derive(Clone, Copy)]
pub struct SourceSite {
    /// The index of the function.
    pub func: u32,
    /// The index of the block in the function.
    pub block: u32,
    /// How many calls and indirect calls stand before the place in its block.
    pub number: u32,
}

/// A step of the path of an operation.
///
/// A jump or a branch leads to a block with number 0, a call or an indirect call to block 0 of a
/// function with number 0, and a return to the site of the call.
#[derive(Clone, Copy)]
pub enum SourceEdge {
    Jump {
        from: SourceSite,
        to: SourceSite,
    },
    Branch {
        /// Whether the branch goes to its first block. It stands in front, so that an edge has 28 bytes.
        bit: bool,
        from: SourceSite,
        to: SourceSite,
    },
    Call {
        from: SourceSite,
        to: SourceSite,
    },
    ICall {
        from: SourceSite,
        to: SourceSite,
    },
    Ret {
        from: SourceSite,
        to: SourceSite,
    },
    /// The operation returns.
    End {
        op: u16,
    },
}

/// A load of a critical scalar, or of an element of a critical array.
#[derive(Clone, Copy)]
pub struct CriticalLoad {
    /// The number of the cell.
    pub cell: u32,
    /// What was loaded.
    pub value: i64,
}
