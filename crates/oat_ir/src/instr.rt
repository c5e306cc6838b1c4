use crate::args::Args;

/// An instruction. Where nothing else is said, an operand is the index of a local of the function.
#[derive(Drop)]
pub enum Instr {
    /// x is the number.
    Const { x: u32, value: i64 },
    /// x is y.
    Copy { x: u32, y: u32 },
    /// x is the result of the operation on y and z.
    Binary { op: BinOp, x: u32, y: u32, z: u32 },
    /// x is a global scalar.
    Load { x: u32, global: u32 },
    /// A global scalar is x.
    Store { global: u32, x: u32 },
    /// x is element i of a global array.
    LoadX { x: u32, array: u32, i: u32 },
    /// Element i of a global array is x.
    StoreX { array: u32, i: u32, x: u32 },
    /// x is a reference of a function.
    RefTo { x: u32, func: u32 },
    /// x is the result of a function.
    Call { x: u32, func: u32, args: Args },
    /// x is the result of the function that y refers to.
    ICall { x: u32, y: u32, args: Args },
    /// x is the next input.
    Input { x: u32 },
    /// x is output.
    Output { x: u32 },
}

/// What is done with two numbers of 64 bits.
#[derive(Clone, Copy)]
pub enum BinOp {
    /// Sum, difference and product, modulo 2^64.
    Add,
    Sub,
    Mul,
    /// Bit by bit.
    And,
    Or,
    Xor,
    /// Shifts, by the second number modulo 64. Shr fills with zeros, Sar with the sign.
    Shl,
    Shr,
    Sar,
    /// 1 where it is so, else 0.
    Eq,
    Ne,
    Lt,
    Le,
    /// The same of numbers without sign.
    Ltu,
    Leu,
    /// Quotient towards zero and its remainder; a trap where the second number is 0.
    Div,
    Rem,
    /// The same of numbers without sign.
    Divu,
    Remu,
}

/// The end of a block. A target is the index of a block of the function.
#[derive(Clone, Copy)]
pub enum Term {
    Jump { to: u32 },
    /// To the first block where the local x isn't 0, else to the second.
    Branch { x: u32, first: u32, second: u32 },
    /// Back to the caller, whose result is the local x.
    Ret { x: u32 },
    /// The end of the run.
    Halt,
}
