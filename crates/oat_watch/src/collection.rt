//! The windows of a run, collected instruction by instruction.
ghost use Rattle.std.specs.Prelude.{◌≡◌, ◌++◌, ◌∷◌, ◌↔◌, ◌≤◌, List, [], Option, Some, IfOk, IsTrue, Ok, OnOk, length, map};
ghost use Rattle.oat_attest.specs.{
  Cells,
  IsWellFormedImage,
  start_cells,
  Entry as JournalEntry,
  Held,
  made_call,
  MonitorCall as Call,
  Opening,
  measuring,
  cells_of,
  Measurements,
  at_start,
  measured_on,
  IsLaid,
};
ghost use Rattle.oat_device.specs.Advancing.{ShowsEntry};
ghost use Rattle.oat_watch.specs.Collecting.{Collects, CollectsEntry};

use crate::cells::CellTable;
use crate::window::Window;
use oat_device::{Entry, Image, MonitorCall};
use std::alloc::{AllocError, Global};
use std::mem;

#[derive(Drop)]
pub struct Collection {
    pub cells: CellTable,
    /// Of no instructions where no window is open.
    pub present: Window,
    pub closed: Vec<Window>,
}

fn note_define(cells: &mut CellTable, call: MonitorCall)
    ensures held { (words : Cells) (before : List (Option Call)) → Held words before (cells_of cells.old.words.items) → Held words (before ++ Some call ∷ []) (cells_of cells.new.words.items) }
    ensures few { length cells.new.words.items ≡ length cells.old.words.items }
{
    match call {
        MonitorCall::Define { cell, value } => cells.define(cell, value),
        _ => {}
    }
}

fn note_call(cells: &mut CellTable, call: Option<MonitorCall>)
    ensures held { (words : Cells) (before : List (Option Call)) → Held words before (cells_of cells.old.words.items) → Held words (before ++ call ∷ []) (cells_of cells.new.words.items) }
    ensures few { length cells.new.words.items ≡ length cells.old.words.items }
{
    match call {
        Some(call) => note_define(cells, call),
        None => {}
    }
}

impl Collection {
    pub fn at_start(alloc: Global, image: &Image) -> Result<Collection, AllocError>
        requires { IsWellFormedImage image.now }
        ensures { IfOk result (λ collection. (o : Opening) → Collects image.now o (at_start o (start_cells image.now)) [] collection) }
    {
        Ok(Collection {
            cells: CellTable::at_start(alloc, image)?,
            present: Window::new(alloc),
            closed: Vec::new(alloc),
        })
    }

    /// Takes up one more instruction, before which a window was open or not, and behind which one is open or not.
    pub fn take(
        &mut self,
        alloc: Global,
        image: &Image,
        op: u16,
        entry: &Entry,
        was_inside: bool,
        is_inside: bool,
    ) -> Result<(), AllocError>
        requires laid { IsLaid image.now }
        requires few { length self.old.cells.words.items ≤ 65536 }
        ensures more { OnOk result (CollectsEntry image.now op entry.now was_inside is_inside self.old self.new) }
        ensures few { length self.new.cells.words.items ≡ length self.old.cells.words.items }
    {
        let call = entry.call();
        if !was_inside {
            note_call(&mut self.cells, call);
            return Ok(());
        }
        self.present.take(image, op, &self.cells, entry)?;
        note_call(&mut self.cells, call);
        if is_inside {
            return Ok(());
        }
        let closed = mem::replace(&mut self.present, Window::new(alloc));
        self.closed.push(closed)?;
        Ok(())
    }
}
