//! What the critical cells were last defined as.
ghost use Rattle.std.specs.Prelude.{◌≡◌, ◌≤◌, length, IfOk};
ghost use Rattle.oat_attest.specs.{defined, IsWellFormedImage, start_cells, cells_of};

use oat_device::{Image, first_words};
use std::alloc::{AllocError, Global};

/// The words that the cells of an image were last defined as.
#[derive(Drop)]
pub struct CellTable {
    pub words: Vec<u64>,
}

impl CellTable {
    pub fn at_start(alloc: Global, image: &Image) -> Result<CellTable, AllocError>
        requires { IsWellFormedImage image.now }
        ensures words { IfOk result (λ table. cells_of table.words.items ≡ start_cells image.now) }
        ensures few { IfOk result (λ table. length table.words.items ≤ 65536) }
    {
        let words = first_words(alloc, image)?;
        Ok(CellTable { words })
    }

    pub fn get(&self, cell: u64) -> Option<u64>
        ensures { result ≡ cells_of self.now.words.items cell }
    {
        self.words.get(cell as usize).copied()
    }

    /// Sets the cell, if there is one of this number.
    pub fn define(&mut self, cell: u64, value: u64)
        ensures words { cells_of self.new.words.items ≡ defined (cells_of self.old.words.items) cell value }
        ensures few { length self.new.words.items ≡ length self.old.words.items }
    {
        if let Some(word) = self.words.get_mut(cell as usize) {
            *word = value;
        }
    }
}
