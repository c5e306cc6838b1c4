//! The steps of a body: what is done at each place, and what becomes of its value.
use oat_tree::Operator;

/// What is done.
#[derive(Clone, Copy)]
pub enum Act {
    /// A statement is begun.
    Begins,
    /// The test of a `while` is decided by its value.
    Decides,
    /// The end of a function's body.
    ReachesEnd,
    Literal(u64),
    ReadsLocal(u8),
    ReadsScalar(u32),
    ReadsElement(u32),
    /// A function is called, with so many arguments.
    Calls(u32, u8),
    TakesInput,
    Negates,
    Operates(Operator),
}

/// What becomes of a value, and the place where it goes on.
#[derive(Clone, Copy)]
pub enum Use {
    /// It is an operand of what comes at the next place.
    Keeps,
    /// It is of no use.
    Drops(u32),
    /// To a local.
    Assigns(u8, u32),
    /// To a scalar.
    StoresScalar(u32, u32),
    /// To the element of an array whose index is operand 0.
    StoresElement(u32, u32),
    Puts(u32),
    /// To the first place where it isn't 0, else to the second.
    Chooses(u32, u32),
    Returns,
    Halts,
}

/// A step. So many operands are open below its own, and there its value is held.
#[derive(Clone, Copy)]
pub struct Step {
    pub act: Act,
    pub open_below: u8,
    pub use_of: Use,
}
