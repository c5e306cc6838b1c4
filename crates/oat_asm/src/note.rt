/// A row of the map whose group follows. Places are labels, and `index` is the
/// cell's word among the global words; of an array, the first cell's.
#[derive(Clone, Copy)]
pub enum Note {
    Jump { to: u32 },
    Branch { taken: u32, other: u32 },
    Call { to: u32 },
    ICall { params: u8 },
    Ret,
    Begin { op: u16 },
    End { op: u16 },
    UseCell { cell: u16, index: u32 },
    DefCell { cell: u16, index: u32 },
    UseAt { cell: u16, len: u16, index: u32 },
    DefAt { cell: u16, len: u16, index: u32 },
    Check,
}
