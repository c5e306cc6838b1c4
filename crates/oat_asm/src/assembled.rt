use crate::note::Note;
use oat_list::Listed;
use std::alloc::AllocError;

/// A label, and the address at which it stands.
#[derive(Clone, Copy)]
pub struct LabelAt {
    pub label: u32,
    pub at: u64,
}

/// A note, and the address of the first word of its group.
#[derive(Clone, Copy)]
pub struct NoteAt {
    pub note: Note,
    pub at: u64,
}

/// Code, and where its labels and notes stand, in the order of the items.
#[derive(Drop)]
pub struct Assembled {
    pub code: Listed<u32>,
    pub labels: Listed<LabelAt>,
    pub notes: Listed<NoteAt>,
}

/// Why items can't be assembled.
#[derive(Clone, Copy)]
pub enum AsmFault {
    /// The items need so many words, which is above the limit of 131,072.
    CodeTooLarge(u64),
    Memory,
}

impl From<AllocError> for AsmFault {
    ghost use Rattle.std.specs.Prelude.{◌≡◌};
    ghost use Rattle.oat_asm.specs.declared.assembled.AsmFault.TheVariants.{Memory};

    ghost from_gives = { λ _ e. e ≡ Memory };

    fn from(_error: AllocError) -> AsmFault {
        AsmFault::Memory
    }
}
