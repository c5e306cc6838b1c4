use crate::instr::{Instr, Term};
use oat_map::{Listed, Name};

/// A function. Its parameters are the first of its locals, and its first block is entered first.
#[derive(Drop)]
pub struct Func {
    pub name: Name,
    pub role: Role,
    /// How many of the locals are parameters.
    pub params: u8,
    pub locals: Listed<Local>,
    pub blocks: Listed<BlockIr>,
}

/// What a function is there for.
#[derive(Clone, Copy)]
pub enum Role {
    Plain,
    /// An operation, which can be attested, and its number.
    Operation(u16),
    /// Where the program starts.
    Main,
}

/// A variable of a function, 0 or null until it is set.
#[derive(Drop)]
pub struct Local {
    pub name: Name,
    pub ty: Ty,
}

/// What a local contains.
#[derive(Clone, Copy)]
pub enum Ty {
    I64,
    /// A reference of a function with so many parameters.
    Fn(u8),
}

/// Instructions that run one after the other, and where it goes from there.
#[derive(Drop)]
pub struct BlockIr {
    pub label: Name,
    pub instrs: Listed<Instr>,
    pub term: Term,
}
