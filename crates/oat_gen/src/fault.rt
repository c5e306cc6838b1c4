use std::alloc::AllocError;

/// Why a program has no items.
#[derive(Clone, Copy)]
pub enum GenFault {
    Memory,
}

impl From<AllocError> for GenFault {
    ghost use Rattle.std.specs.Prelude.{◌≡◌};
    ghost use Rattle.oat_gen.specs.declared.fault.GenFault.TheVariants.{Memory};

    ghost from_gives = { λ _ e. e ≡ Memory };

    fn from(_error: AllocError) -> GenFault {
        GenFault::Memory
    }
}
