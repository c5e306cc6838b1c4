//! Where the globals of a program lie.

ghost use Rattle.std.specs.Prelude.{◌≡◌, ◌+◌, ◌≤◌, All, IfOk};
ghost use Rattle.std.specs.List.{sum_by};
ghost use Rattle.oat_globals.specs.{IsGlobal, size_in_cells, size_in_words};
ghost use Rattle.oat_gen.specs.GlobalPlaces.{global_places, placed};

use oat_ir::{GlobalItem, Program};
use std::alloc::{AllocError, Global};

/// Where a global lies: its first word among the global words, and how many elements it has.
#[derive(Clone, Copy)]
pub enum GlobalPlace {
    Ordinary { word: u32, len: u32 },
    /// Its elements are cells; `cell` is the number of the first.
    Critical { word: u32, cell: u16, len: u16 },
}

/// The places of all globals, in their order.
pub(crate) fn global_places(
    alloc: Global,
    program: &Program,
) -> Result<Vec<GlobalPlace>, AllocError>
    requires globals { All IsGlobal program.now.globals }
    requires few { sum_by size_in_words program.now.globals ≤ 65536 }
    ensures { IfOk result (λ places. places.items ≡ global_places program.now) }
{
    let mut places = Vec::new(alloc);
    let mut word = 0;
    let mut cell = 0;
    for item in program.globals.as_slice() {
        places.push(placed(item, word, cell))?;
        word += size_in_words(item);
        cell += size_in_cells(item);
    }
    Ok(places)
}

fn placed(item: &GlobalItem, word: u32, cell: u32) -> GlobalPlace
    requires item { IsGlobal item.now }
    requires cells { cell + size_in_cells item.now ≤ 65536 }
    ensures { result ≡ placed item.now word cell }
{
    match item {
        GlobalItem::Scalar { critical: true, .. } => GlobalPlace::Critical {
            word,
            cell: cell as u16,
            len: 1,
        },
        GlobalItem::Scalar { .. } | GlobalItem::FnScalar { .. } => {
            GlobalPlace::Ordinary { word, len: 1 }
        }
        GlobalItem::Array { len, .. } => GlobalPlace::Ordinary { word, len: *len },
        GlobalItem::CriticalArray { len, .. } => GlobalPlace::Critical {
            word,
            cell: cell as u16,
            len: *len as u16,
        },
    }
}

fn size_in_words(item: &GlobalItem) -> u32
    ensures { result ≡ size_in_words item.now }
{
    match item {
        GlobalItem::Scalar { .. } | GlobalItem::FnScalar { .. } => 1,
        GlobalItem::Array { len, .. } | GlobalItem::CriticalArray { len, .. } => *len,
    }
}

fn size_in_cells(item: &GlobalItem) -> u32
    ensures { result ≡ size_in_cells item.now }
{
    match item {
        GlobalItem::Scalar { critical, .. } => u32::from(*critical),
        GlobalItem::CriticalArray { len, .. } => *len,
        GlobalItem::FnScalar { .. } | GlobalItem::Array { .. } => 0,
    }
}
