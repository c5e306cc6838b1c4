use std::alloc::{AllocError, AllocFailed};

/// How work that was done ended.
#[derive(Clone, Copy)]
pub enum Ended {
    /// The verdict accepts, or the work is done.
    Done,
    /// The verdict rejects.
    Rejected,
    /// The run isn't sealed after its last step.
    Unsealed,
}

impl Ended {
    ghost use Rattle.std.specs.Prelude.{◌≡◌};
    ghost use Rattle.oat_page.specs.Answer.{status_of};

    pub fn status(self) -> u8
        ensures { result ≡ status_of self }
    {
        match self {
            Ended::Done => 0,
            Ended::Rejected => 1,
            Ended::Unsealed => 7,
        }
    }
}

/// What a command sets out to put: a text in pieces on the first output, and one on the second.
#[derive(Drop)]
pub struct Page<P> {
    pub ended: Ended,
    pub pieces: P,
    pub err: Vec<u8>,
}

/// Why the work of a command stops before its end.
#[derive(Drop)]
pub enum Stop {
    /// An input is refused by this line.
    Refused(Vec<u8>),
    /// There was no memory.
    Starved,
}

/// Why loads stop.
#[derive(Drop)]
pub enum Halt {
    /// A load failed, as this line says.
    ReadFault(Vec<u8>),
    /// A file is refused by this line.
    Refused(Vec<u8>),
    /// There was no memory.
    Starved,
}

impl From<AllocError> for Stop {
    ghost use Rattle.std.specs.Prelude.{◌≡◌};
    ghost use Rattle.oat_page.specs.declared.page.Stop.TheVariants.{Starved};

    ghost from_gives = { λ _ stop. stop ≡ Starved };

    fn from(_error: AllocError) -> Stop {
        Stop::Starved
    }
}

impl<T: Drop> From<AllocFailed<T>> for Stop {
    ghost use Rattle.std.specs.Prelude.{◌≡◌};
    ghost use Rattle.oat_page.specs.declared.page.Stop.TheVariants.{Starved};

    ghost from_gives = { λ _ stop. stop ≡ Starved };

    fn from(_failed: AllocFailed<T>) -> Stop {
        Stop::Starved
    }
}

impl From<AllocError> for Halt {
    ghost use Rattle.std.specs.Prelude.{◌≡◌};
    ghost use Rattle.oat_page.specs.declared.page.Halt.TheVariants.{Starved};

    ghost from_gives = { λ _ halt. halt ≡ Starved };

    fn from(_error: AllocError) -> Halt {
        Halt::Starved
    }
}

impl<T: Drop> From<AllocFailed<T>> for Halt {
    ghost use Rattle.std.specs.Prelude.{◌≡◌};
    ghost use Rattle.oat_page.specs.declared.page.Halt.TheVariants.{Starved};

    ghost from_gives = { λ _ halt. halt ≡ Starved };

    fn from(_failed: AllocFailed<T>) -> Halt {
        Halt::Starved
    }
}

impl From<Stop> for Halt {
    ghost use Rattle.std.specs.Prelude.{◌≡◌};
    ghost use Rattle.oat_page.specs.Works.{halt_of};

    ghost from_gives = { λ stop halt. halt ≡ halt_of stop };

    fn from(stop: Stop) -> Halt {
        match stop {
            Stop::Refused(line) => Halt::Refused(line),
            Stop::Starved => Halt::Starved,
        }
    }
}
