use crate::states::{Measuring, Sealed, Unmeasured};

/// The one measurement state of a run.
#[derive(Drop)]
pub enum Engine {
    Before(Unmeasured),
    Inside(Measuring),
    After(Sealed),
}
