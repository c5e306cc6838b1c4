/// Why an instruction could not be made. Each carries the address concerned.
#[derive(Clone, Copy)]
pub enum FaultKind {
    /// A load or store outside the data regions, or not at a multiple of 8.
    Access(u64),
    /// A fetch outside code, or not at a multiple of 4.
    Fetch(u64),
    /// A word that doesn't decode, or a call or trap with an unknown number.
    Undefined(u64),
}

/// What one instruction leaves to its caller.
#[derive(Clone, Copy)]
pub enum Event {
    Next,
    /// A monitor call by its number.
    Svc(u16),
    /// A trap by its number, 1 to 4.
    Brk(u16),
    Fault(FaultKind),
}
