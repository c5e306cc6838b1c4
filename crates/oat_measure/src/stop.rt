/// Why the monitor stops a run.
#[derive(Clone, Copy)]
pub enum StopKind {
    /// An operation began inside the window.
    Nested,
    /// Another operation than the session's ended inside the window.
    WrongEnd,
}
