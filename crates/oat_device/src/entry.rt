ghost use Rattle.std.specs.Prelude.{◌≡◌};
ghost use Rattle.oat_journal.specs.Run.{Entry as JournalEntry};
ghost use Rattle.oat_journal.specs.Window.{made_call};
ghost use Rattle.oat_device.specs.Advancing.{ShowsEntry};

use crate::call::call_numbered;
use oat_a64::{Inst, decode};
use oat_measure::MonitorCall;

/// An instruction of a run that it didn't end: its word, its address and that of the next one, and what X9, X10 and X30 held before it.
#[derive(Clone, Copy)]
pub struct Entry {
    pub word: u32,
    pub pc: u64,
    pub next: u64,
    pub x9: u64,
    pub x10: u64,
    pub x30: u64,
}

impl Entry {
    /// The monitor call that the instruction made.
    pub fn call(&self) -> Option<MonitorCall>
        ensures { (e : JournalEntry) → ShowsEntry self.now e → result ≡ made_call e }
    {
        match decode(self.word) {
            Some(Inst::Svc { imm }) => call_numbered(imm, self.pc, self.x9, self.x10, self.x30),
            _ => None,
        }
    }
}
