use oat_list::Listed;

/// One transfer of control. `from` is the address of the row's group.
#[derive(Clone, Copy, PartialEq, Eq)]
pub enum Edge {
    Jump { from: u64, to: u64 },
    Branch { from: u64, bit: bool, to: u64 },
    Call { from: u64, to: u64 },
    ICall { from: u64, to: u64 },
    Ret { from: u64, to: u64 },
    End { op: u16 },
    /// A transfer that no row allows; here `from` is the instruction itself.
    Stray { from: u64, to: u64 },
}

/// The edges of an operation, in the order in which they are taken.
pub type Path = Listed<Edge>;
