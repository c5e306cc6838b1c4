use std::alloc::AllocError;

/// Why items can't be instrumented.
#[derive(Clone, Copy)]
pub enum InstrFault {
    Memory,
}

impl From<AllocError> for InstrFault {
    ghost use Rattle.std.specs.Prelude.{◌≡◌};
    ghost use Rattle.oat_instr.specs.declared.fault.InstrFault.TheVariants.{Memory};

    ghost from_gives = { λ _ e. e ≡ Memory };

    fn from(_error: AllocError) -> InstrFault {
        InstrFault::Memory
    }
}
