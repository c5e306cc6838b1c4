//! What a define and a use do to the words of the cells.

ghost use Rattle.std.specs.Prelude.{◌≡◌, ◌≤◌, length, None};
ghost use Rattle.oat_measure.specs.Measurement.{violated};
ghost use Rattle.oat_events.specs.Cells.{defined};
ghost use Rattle.oat_measure.specs.Monitored.{cells_of};

use oat_blob::Violation;

/// Sets the cell, if there is one of this number.
pub fn define(cells: &mut Vec<u64>, cell: u64, value: u64)
    ensures cells { cells_of cells.new.items ≡ defined (cells_of cells.old.items) cell value }
    ensures few { length cells.new.items ≡ length cells.old.items }
{
    if cell < cells.len() as u64 {
        cells[cell as usize] = value;
    }
}

/// The violation of a use that has none before it.
pub fn unsound(cells: &[u64], cell: u64, found: u64) -> Option<Violation>
    requires few { length cells.now ≤ 65536 }
    ensures { result ≡ violated None cell (cells_of cells.now cell) found }
{
    if cell >= cells.len() as u64 {
        return None;
    }
    let expected = cells[cell as usize];
    if expected == found {
        return None;
    }
    Some(Violation {
        cell: cell as u32,
        expected,
        found,
    })
}
