//! What the globals of a program hold while it runs.
ghost use Rattle.std.specs.Prelude.{◌≡◌, ◌<◌, ◌≤◌, IfOk};
ghost use Rattle.std.specs.List.{sum_by};
ghost use Rattle.oat_check.specs.Globals.{
  cell_number,
  first_values,
  length_at,
  put,
  size_in_cells,
  size_in_words,
  start_of,
};
ghost use Rattle.oat_meaning.specs.Globals.{values_of};

use oat_ir::{GlobalItem, Program};
use std::alloc::{AllocError, Global};
use std::marker::Model;

/// The elements of a global, a scalar being one, and its cells.
#[derive(Drop)]
pub struct Slot {
    pub words: Vec<u64>,
    /// How many of the elements are cells: all or none.
    pub cells: u32,
    pub first_cell: u32,
}

fn size_in_words(item: &GlobalItem) -> u32
    ensures { result ≡ size_in_words item.now }
{
    match item {
        GlobalItem::Scalar { .. } | GlobalItem::FnScalar { .. } => 1,
        GlobalItem::Array { len, .. } | GlobalItem::CriticalArray { len, .. } => *len,
    }
}

fn size_in_cells(item: &GlobalItem) -> u32
    ensures { result ≡ size_in_cells item.now }
{
    match item {
        GlobalItem::Scalar { critical, .. } => u32::from(*critical),
        GlobalItem::CriticalArray { len, .. } => *len,
        GlobalItem::FnScalar { .. } | GlobalItem::Array { .. } => 0,
    }
}

fn start_of(item: &GlobalItem) -> u64
    ensures { result ≡ start_of item.now }
{
    match item {
        GlobalItem::Scalar { start, .. } => start.cast_unsigned(),
        _ => 0,
    }
}

/// The globals of a program, each with its words.
#[derive(Drop)]
pub struct Globals<'a> {
    program: &'a Program,
    slots: Vec<Slot>,
}

impl<'a> Model for Globals<'a> {
    ghost use Rattle.oat_meaning.specs.Globals.{AreSlotsOf, Stored, slot_words};

    ghost Value = { Stored };

    ghost view = { λ globals. record { program = globals.program.now; words = slot_words globals.slots.items } };

    ghost invariant = { λ globals. AreSlotsOf globals.program.now.globals globals.slots.items };
}

impl<'a> Globals<'a> {
    /// All globals as they are at the start.
    pub fn at_start(alloc: Global, program: &'a Program) -> Result<Globals<'a>, AllocError>
        requires { sum_by size_in_words program.now.globals ≤ 65536 }
        ensures program { IfOk result (λ globals. globals.program ≡ program.now) }
        ensures values { IfOk result (λ globals. values_of globals ≡ first_values program.now) }
    {
        let items = program.globals.as_slice();
        let mut slots = Vec::with_capacity(alloc, items.len())?;
        let mut first_cell = 0;
        for item in items {
            let words = Vec::from_elem(alloc, start_of(item), size_in_words(item) as usize)?;
            let cells = size_in_cells(item);
            slots.push_reserved(Slot {
                words,
                cells,
                first_cell,
            });
            first_cell += cells;
        }
        Ok(Globals { program, slots })
    }

    /// How many elements a global has; none where there is no such global.
    pub fn length_at(&self, global: u32) -> usize
        ensures { result ≡ length_at self.now.program global }
    {
        match self.slots.as_slice().get(global as usize) {
            Some(slot) => slot.words.len(),
            None => 0,
        }
    }

    pub fn get(&self, global: u32, i: usize) -> u64
        requires { i < length_at self.now.program global }
        ensures { result ≡ values_of self.now global i }
    {
        self.slots[global as usize].words[i]
    }

    pub fn put(&mut self, global: u32, i: usize, value: u64)
        requires { i < length_at self.old.program global }
        ensures program { self.new.program ≡ self.old.program }
        ensures values { values_of self.new ≡ put (values_of self.old) global i value }
    {
        let slot = &mut self.slots[global as usize];
        slot.words[i] = value;
    }

    /// The number of the cell that an element is, if it is one.
    pub fn cell_number(&self, global: u32, i: usize) -> Option<u32>
        ensures { result ≡ cell_number self.now.program global i }
    {
        match self.slots.as_slice().get(global as usize) {
            Some(slot) if i < slot.cells as usize => Some(slot.first_cell + i as u32),
            _ => None,
        }
    }
}
