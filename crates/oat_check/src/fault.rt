use oat_ir::Program;

/// The kinds of checking rules.
#[derive(Clone, Copy)]
pub enum CheckKind {
    /// No function is the main one.
    NoMain,
    /// The globals have more than 65,536 words.
    GlobalWords,
    /// A function has more than 255 locals.
    Locals,
    /// An operation has no return.
    NoEnd,
    /// The main function is called.
    CallsMain,
    /// An operation is called by another function than the main one.
    OperationCall,
    /// A reference is of the main function, of an operation, or of a function whose parameters aren't all numbers.
    RefKind,
    /// A call has another number of arguments than its function has parameters.
    Arity,
    /// An operand has another type than its line asks for, or a scalar stands in place of an array or the reverse.
    Kind,
    /// The main function returns.
    MainRet,
}

/// The first checking rule that a program breaks, and where. Functions, blocks and places count
/// from 0, and so does the number 0 of a function or block that a rule doesn't speak of.
#[derive(Clone, Copy)]
pub enum CheckFault {
    At {
        kind: CheckKind,
        func: u32,
        block: u32,
        /// The line of the block; the terminator comes behind all instructions.
        place: u32,
    },
    /// There was no memory for the check.
    Memory,
}

/// A program that breaks a checking rule.
#[derive(Drop)]
pub struct CheckRefusal {
    /// The program, as it was handed in.
    pub program: Program,
    pub fault: CheckFault,
}
