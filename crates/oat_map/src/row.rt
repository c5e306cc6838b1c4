ghost use Rattle.std.specs.Prelude.{◌≡◌, ◌==◌, ℕ};
ghost use Rattle.oat_map.specs.Rows.{address_of, word_count, after, begins};

/// A row of the map. `at` is the address of the first instruction of its group.
///
/// `UseAt` and `DefAt` use and define an element of a critical array, whose `len` cells begin with `cell`.
#[derive(Clone, Copy)]
pub enum Row {
    Jump { at: u64, to: u64 },
    Branch { at: u64, taken: u64, other: u64 },
    Call { at: u64, to: u64 },
    ICall { at: u64, params: u8 },
    Ret { at: u64 },
    Begin { at: u64, op: u16 },
    End { at: u64, op: u16 },
    UseCell { at: u64, cell: u16 },
    DefCell { at: u64, cell: u16 },
    UseAt { at: u64, cell: u16, len: u16 },
    DefAt { at: u64, cell: u16, len: u16 },
    Check { at: u64 },
}

impl Row {
    pub fn address(&self) -> u64
        ensures { result ≡ address_of self.now }
    {
        match *self {
            Row::Jump { at, .. }
            | Row::Branch { at, .. }
            | Row::Call { at, .. }
            | Row::ICall { at, .. }
            | Row::Ret { at }
            | Row::Begin { at, .. }
            | Row::End { at, .. }
            | Row::UseCell { at, .. }
            | Row::DefCell { at, .. }
            | Row::UseAt { at, .. }
            | Row::DefAt { at, .. }
            | Row::Check { at } => at,
        }
    }

    /// The number of words of the row's group.
    pub fn word_count(&self) -> u64
        ensures { result ≡ word_count self.now }
    {
        match self {
            Row::Jump { .. } | Row::Call { .. } => 1,
            Row::ICall { .. }
            | Row::Ret { .. }
            | Row::Begin { .. }
            | Row::End { .. }
            | Row::Check { .. } => 2,
            Row::Branch { .. } => 3,
            Row::UseCell { .. } | Row::DefCell { .. } => 5,
            Row::UseAt { .. } | Row::DefAt { .. } => 10,
        }
    }

    /// The address behind the row's group.
    pub fn after(&self) -> u64
        ensures { result ≡ after self.now }
    {
        self.address().wrapping_add(4 * self.word_count())
    }

    /// Whether this is the Begin row of an operation.
    pub fn begins(&self, op: u16) -> bool
        ensures { result ≡ begins op self.now }
    {
        matches!(self, Row::Begin { op: begun, .. } if *begun == op)
    }
}
