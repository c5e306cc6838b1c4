use oat_asm::AsmFault;
use oat_gen::GenFault;
use oat_instr::InstrFault;
use std::alloc::AllocError;

/// Why a program has no image.
#[derive(Clone, Copy)]
pub enum BuildFault {
    /// Its code needs so many words, which is above the limit of 131,072.
    CodeTooLarge(u64),
    Memory,
}

impl From<AllocError> for BuildFault {
    ghost use Rattle.std.specs.Prelude.{◌≡◌};
    ghost use Rattle.oat_build.specs.declared.fault.BuildFault.TheVariants.{Memory};

    ghost from_gives = { λ _ e. e ≡ Memory };

    fn from(_error: AllocError) -> BuildFault {
        BuildFault::Memory
    }
}

impl From<GenFault> for BuildFault {
    ghost use Rattle.std.specs.Prelude.{◌≡◌};
    ghost use Rattle.oat_build.specs.declared.fault.BuildFault.TheVariants.{Memory};

    ghost from_gives = { λ _ e. e ≡ Memory };

    fn from(_fault: GenFault) -> BuildFault {
        BuildFault::Memory
    }
}

impl From<InstrFault> for BuildFault {
    ghost use Rattle.std.specs.Prelude.{◌≡◌};
    ghost use Rattle.oat_build.specs.declared.fault.BuildFault.TheVariants.{Memory};

    ghost from_gives = { λ _ e. e ≡ Memory };

    fn from(_fault: InstrFault) -> BuildFault {
        BuildFault::Memory
    }
}

impl From<AsmFault> for BuildFault {
    ghost use Rattle.std.specs.Prelude.{◌≡◌};
    ghost use Rattle.oat_build.specs.Faults.{fault_of};

    ghost from_gives = { λ fault e. e ≡ fault_of fault };

    fn from(fault: AsmFault) -> BuildFault {
        match fault {
            AsmFault::CodeTooLarge(words) => BuildFault::CodeTooLarge(words),
            AsmFault::Memory => BuildFault::Memory,
        }
    }
}
