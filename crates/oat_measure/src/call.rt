/// A monitor call from 1 to 7 with the values that it takes.
#[derive(Clone, Copy)]
pub enum MonitorCall {
    /// An operation begins, by the call at this address.
    Begin { op: u64, at: u64 },
    End { op: u64 },
    /// A branch is taken where the value isn't 0.
    Bit { value: u64 },
    /// An indirect call goes there.
    Target { address: u64 },
    /// A function returns there.
    Return { address: u64 },
    Define { cell: u64, value: u64 },
    Use { cell: u64, value: u64 },
}
