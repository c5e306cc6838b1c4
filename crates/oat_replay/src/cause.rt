/// Why a replay gets stuck.
#[derive(Clone, Copy)]
pub enum ReplayCause {
    /// A branch, but all bits are used.
    BitsEnd,
    /// An indirect call, but all targets are used.
    TargetsEnd,
    /// The next target isn't one that the indirect call may lead to.
    BadTarget(u64),
    /// A return without an open call.
    Underflow,
    /// The operation's end within an open call.
    EndInside,
    /// The begin of an operation.
    Nested,
    /// The end of another operation.
    WrongEnd,
    /// No row stands at or above the place.
    OffCode,
    /// The operation's end, with this many bits left.
    BitsLeft(u32),
    /// The operation's end, with this many targets left.
    TargetsLeft(u32),
    /// The most steps of a walk are done without an end.
    PathLimit,
}

/// Why a walk has no path.
#[derive(Clone, Copy)]
pub enum WalkFault {
    /// `turn` is the turn that got stuck, counted from 1.
    Stuck { cause: ReplayCause, turn: u32 },
    Memory,
}
