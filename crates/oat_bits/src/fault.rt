ghost use Rattle.std.specs.Prelude.{◌≡◌};
ghost use Rattle.oat_bits.specs.declared.fault.BitsFault.TheVariants.{Memory};

use std::alloc::AllocError;

/// Why bytes aren't the packed form of a number of bits.
#[derive(Clone, Copy)]
pub enum BitsFault {
    /// More or fewer bytes than the bits take.
    Length,
    /// A bit behind the last one isn't zero.
    Padding,
    Memory,
}

impl From<AllocError> for BitsFault {
    ghost from_gives = { λ _ e. e ≡ Memory };

    fn from(_e: AllocError) -> BitsFault {
        BitsFault::Memory
    }
}
