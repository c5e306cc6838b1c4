ghost use Rattle.std.specs.Prelude.{ℕ, ◌≡◌, ◌↔◌, ◌||◌, IsTrue, IfOk};
ghost use Rattle.std.specs.List.{list_any};
ghost use Rattle.std.specs.Result.{OnOk};
ghost use Rattle.std.specs.BTreeSet.{contains};
ghost use Rattle.std.specs.Ordering.{nat_cmp};
ghost use Rattle.oat_image.specs.{address_of, begins};
ghost use Rattle.oat_shape.specs.Lowest.{Lowest, EachAt};
ghost use Rattle.oat_shape.specs.Parts.{BeginsFirst, EndIsBegun, EndIsIn, IsFresh};

use crate::lowest::note;
use oat_map::Row;
use std::alloc::{AllocError, Global};
use std::collections::BTreeSet;

/// Shape rule S7: the lowest row that begins an operation again, or ends one that no row begins.
pub(crate) fn lowest_unpaired(alloc: Global, rows: &[Row]) -> Result<Option<u64>, AllocError>
    ensures { IfOk result (λ lowest. Lowest (EachAt rows.now (λ k row. address_of row) (λ k row. BeginsFirst rows.now k row × EndIsBegun rows.now row)) lowest) }
{
    let begun = operations(alloc, rows)?;
    let mut seen = BTreeSet::new(alloc);
    let mut lowest = None;
    for row in rows {
        let at = row.address();
        let fresh = add_begun(&mut seen, row)?;
        lowest = note(lowest, fresh, at);
        lowest = note(lowest, end_is_in(&begun, row), at);
    }
    Ok(lowest)
}

/// The operations that rows begin.
fn operations(alloc: Global, rows: &[Row]) -> Result<BTreeSet<u16>, AllocError>
    ensures { IfOk result (λ begun. (op : ℕ) → contains nat_cmp begun op ≡ list_any (begins op) rows.now) }
{
    let mut begun = BTreeSet::new(alloc);
    for row in rows {
        add_begun(&mut begun, row)?;
    }
    Ok(begun)
}

/// Adds the operation that a row begins; false where it is there.
fn add_begun(begun: &mut BTreeSet<u16>, row: &Row) -> Result<bool, AllocError>
    ensures added { OnOk result ((op : ℕ) → contains nat_cmp begun.new op ≡ (contains nat_cmp begun.old op || begins op row.now)) }
    ensures fresh { IfOk result (λ fresh. IsTrue fresh ↔ IsFresh begun.old row.now) }
{
    match *row {
        Row::Begin { op, .. } => Ok(begun.insert(op)?),
        Row::Jump { .. }
        | Row::Branch { .. }
        | Row::Call { .. }
        | Row::ICall { .. }
        | Row::Ret { .. }
        | Row::End { .. }
        | Row::UseCell { .. }
        | Row::DefCell { .. }
        | Row::UseAt { .. }
        | Row::DefAt { .. }
        | Row::Check { .. } => Ok(true),
    }
}

fn end_is_in(begun: &BTreeSet<u16>, row: &Row) -> bool
    ensures { IsTrue result ↔ EndIsIn begun.now row.now }
{
    match *row {
        Row::End { op, .. } => begun.contains(&op),
        Row::Jump { .. }
        | Row::Branch { .. }
        | Row::Call { .. }
        | Row::ICall { .. }
        | Row::Ret { .. }
        | Row::Begin { .. }
        | Row::UseCell { .. }
        | Row::DefCell { .. }
        | Row::UseAt { .. }
        | Row::DefAt { .. }
        | Row::Check { .. } => true,
    }
}
