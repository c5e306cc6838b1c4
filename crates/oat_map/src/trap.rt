/// Why a program trapped.
#[derive(Clone, Copy)]
pub enum TrapKind {
    DivZero,
    Index,
    NullCall,
    Depth,
    InputEnd,
}
