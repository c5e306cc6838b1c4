ghost use Rattle.std.specs.Prelude.{◌≡◌};
ghost use Rattle.oat_asm.specs.Items.{item_words};

use crate::branch_form::BranchForm;
use crate::mark::Mark;
use crate::note::Note;
use oat_a64::Inst;
use oat_list::Listed;

/// A piece of code whose address isn't known yet. Labels are numbers of the caller's choice.
#[derive(Clone, Copy)]
pub enum Item {
    Inst(Inst),
    /// Stands for the address of what follows it, and has no word.
    Label(u32),
    BranchTo { form: BranchForm, label: u32 },
    /// Two words, which put the address of the label into the register.
    AddressOf { register: u8, label: u32 },
    /// A row that is still to be written; it has no word.
    Mark(Mark),
    /// A row whose group follows; it has no word.
    Note(Note),
}

/// The items of a program, in the order in which they stand in code.
pub type Items = Listed<Item>;

impl Item {
    /// How many words the item has in code.
    pub(crate) fn word_count(&self) -> u64
        ensures { result ≡ item_words self.now }
    {
        match self {
            Item::Inst(_) | Item::BranchTo { .. } => 1,
            Item::AddressOf { .. } => 2,
            Item::Label(_) | Item::Mark(_) | Item::Note(_) => 0,
        }
    }
}
