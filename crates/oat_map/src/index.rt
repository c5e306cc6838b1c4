ghost use Rattle.std.specs.Prelude.{◌≡◌, ◌+◌, ◌<◌, length, slice_index, IfOk};
ghost use Rattle.std.specs.List.Sorted.{IsStrictlyIncreasing};
ghost use Rattle.oat_map.specs.Rows.{IsOrdered, row_addresses};

use crate::map::Map;
use oat_steps::Steps;
use std::alloc::{AllocError, Global};
use std::marker::Model;
use std::sync::ledger::Ledger;

/// The addresses of a map's rows, of which each look at one counts as a step.
#[derive(Drop)]
pub struct RowIndex {
    addresses: Vec<u64>,
}

impl Model for RowIndex {
    ghost use Rattle.std.specs.Prelude.{ℕ, List};
    ghost use Rattle.std.specs.List.Sorted.{IsStrictlyIncreasing};

    ghost Value = { List ℕ };

    ghost view = { λ index. index.addresses.items };

    ghost invariant = { λ index. IsStrictlyIncreasing index.addresses.items };
}

impl RowIndex {
    pub fn of(alloc: Global, map: &Map) -> Result<RowIndex, AllocError>
        requires { IsOrdered map.now.rows }
        ensures { IfOk result (λ index. index ≡ row_addresses map.now.rows) }
    {
        let rows = map.rows.as_slice().iter();
        let addresses = rows.map(|row| row.address()).collect(alloc)?;
        Ok(RowIndex { addresses })
    }

    /// The number of rows.
    pub fn len(&self) -> usize
        ensures count { result ≡ length self.now }
        ensures rising { IsStrictlyIncreasing self.now }
    {
        self.addresses.len()
    }

    /// The address of row number `i`.
    pub fn address<L: Ledger>(&self, i: usize, steps: &mut Steps<L>) -> u64
        requires { i < length self.now }
        ensures address { result ≡ slice_index self.now i }
        ensures step { steps.new ≡ steps.old + 1 }
    {
        steps.tick();
        self.addresses[i]
    }
}
