//! A window of a run while it is open.
ghost use Rattle.std.specs.Prelude.{◌≡◌, ◌++◌, ◌≤◌, ℕ, List, [], Option, Some, OnOk, length};
ghost use Rattle.std.specs.List.{cons_option};
ghost use Rattle.std.specs.Option.{option_map};
ghost use Rattle.oat_attest.specs.{Cells, Image as OfImage, Held, use_behind, returned, MonitorCall as Call, Use, cells_of, IsLaid};
ghost use Rattle.oat_watch.specs.Shown.{AddsEntry, Holds, use_of};

use crate::cells::CellTable;
use crate::edge::shown_edge;
use crate::watched::CheckedUse;
use oat_device::{Entry, Image, MonitorCall};
use oat_map::Edge;
use std::alloc::{AllocError, Global};

/// What the instructions of a window have shown so far.
#[derive(Drop)]
pub struct Window {
    pub path: Vec<Edge>,
    pub returns: Vec<u64>,
    pub uses: Vec<CheckedUse>,
}

fn push_some<T: Drop>(items: &mut Vec<T>, item: Option<T>) -> Result<(), AllocError>
    ensures { OnOk result (items.new.items ≡ items.old.items ++ cons_option item []) }
{
    if let Some(item) = item {
        items.push(item)?;
    }
    Ok(())
}

fn returned(call: Option<MonitorCall>) -> Option<u64>
    ensures { result ≡ returned call }
{
    match call {
        Some(MonitorCall::Return { address }) => Some(address),
        _ => None,
    }
}

fn use_found(cells: &CellTable, cell: u64, found: u64) -> Option<CheckedUse>
    requires few { length cells.now.words.items ≤ 65536 }
    ensures { (words : Cells) (before : List (Option Call)) → Held words before (cells_of cells.now.words.items)
        → option_map use_of result ≡ use_behind words before (Some (Use cell found)) }
{
    let defined = cells.get(cell)?;
    Some(CheckedUse {
        cell: cell as u32,
        found,
        defined,
    })
}

/// The checked use that a call makes, of which a number that is no cell makes none.
fn used(cells: &CellTable, call: Option<MonitorCall>) -> Option<CheckedUse>
    requires few { length cells.now.words.items ≤ 65536 }
    ensures { (words : Cells) (before : List (Option Call)) → Held words before (cells_of cells.now.words.items)
        → option_map use_of result ≡ use_behind words before call }
{
    match call {
        Some(MonitorCall::Use { cell, value }) => use_found(cells, cell, value),
        _ => None,
    }
}

impl Window {
    /// One of no instructions.
    pub fn new(alloc: Global) -> Window
        ensures { (image : OfImage) (op : ℕ) (before : List (Option Call)) → Holds image op before [] result }
    {
        Window {
            path: Vec::new(alloc),
            returns: Vec::new(alloc),
            uses: Vec::new(alloc),
        }
    }

    /// Takes up one more instruction, which found the cells like this.
    pub fn take(
        &mut self,
        image: &Image,
        op: u16,
        cells: &CellTable,
        entry: &Entry,
    ) -> Result<(), AllocError>
        requires laid { IsLaid image.now }
        requires few { length cells.now.words.items ≤ 65536 }
        ensures { OnOk result (AddsEntry image.now op entry.now cells.now.words.items self.old self.new) }
    {
        let call = entry.call();
        push_some(&mut self.path, shown_edge(image, op, entry))?;
        push_some(&mut self.returns, returned(call))?;
        push_some(&mut self.uses, used(cells, call))
    }
}
