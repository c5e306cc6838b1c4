ghost use Rattle.std.specs.Prelude.{◌≡◌, ◌+◌, ◌-◌, ◌*◌, ◌^◌, ◌<◌, ◌≤◌, List, length, position, nat_le, slice_get};
ghost use Rattle.std.specs.Option.{option_and_then};
ghost use Rattle.oat_map.specs.declared.row.Row.{Row};
ghost use Rattle.oat_map.specs.Rows.{address_of, row_addresses, next};

use oat_map::{Row, RowIndex, Steps};
use std::sync::ledger::{Blank, Ledger};

/// The index of the row that stands next at or above an address, as the map's `next_row` answers it.
pub fn find_row<L: Ledger>(index: &RowIndex, t: u64, steps: &mut Steps<L>) -> Option<usize>
    ensures index { (rows : List Row) → index.now ≡ row_addresses rows
        → result ≡ position (λ row. nat_le t (address_of row)) rows }
    ensures row { (rows : List Row) → index.now ≡ row_addresses rows
        → option_and_then (slice_get rows) result ≡ next rows t }
    ensures counted { steps.old ≤ steps.new }
    ensures bound { 2 ^ (steps.new - steps.old) ≤ 2 * length index.now + 1 }
{
    let mut low = 0;
    let mut high = index.len();
    while low < high {
        let middle = low + (high - low) / 2;
        if index.address(middle, steps) < t {
            low = middle + 1;
        } else {
            high = middle;
        }
    }
    if low < index.len() { Some(low) } else { None }
}

/// The row that stands next at or above an address, in steps that nobody asks for.
pub(crate) fn row_at_or_above<L: Ledger>(
    rows: &[Row],
    index: &RowIndex,
    t: u64,
    blank: Blank,
) -> Option<Row>
    requires indexed { index.now ≡ row_addresses rows.now }
    requires name { blank.name ≡ L.name }
    requires parts { blank.parts ≡ L.parts }
    requires some { 0 < blank.parts }
    ensures { result ≡ next rows.now t }
{
    let mut steps = Steps::<L>::new(blank);
    let place = find_row(index, t, &mut steps)?;
    rows.get(place).copied()
}
