ghost use Rattle.std.specs.Prelude.{◌↔◌, IsTrue};
ghost use Rattle.std.specs.List.Sorted.{IsStrictlyIncreasing};
ghost use Rattle.oat_image.specs.{address_of};
ghost use Rattle.oat_shape.specs.Lowest.{Lowest, EachAt};
ghost use Rattle.oat_shape.specs.MapRules.{LeadsToPlaces};

use crate::lowest::note;
use crate::places::is_one_of;
use oat_map::Row;

/// Shape rule S4: the lowest row that doesn't lead to places of the right kind.
pub(crate) fn lowest_misled(rows: &[Row], entries: &[u64], starts: &[u64]) -> Option<u64>
    requires entries_rise { IsStrictlyIncreasing entries.now }
    requires starts_rise { IsStrictlyIncreasing starts.now }
    ensures { Lowest (EachAt rows.now (λ k row. address_of row) (λ k row. LeadsToPlaces entries.now starts.now row)) result }
{
    let mut lowest = None;
    for row in rows {
        lowest = note(lowest, leads_to_places(entries, starts, row), row.address());
    }
    lowest
}

fn leads_to_places(entries: &[u64], starts: &[u64], row: &Row) -> bool
    requires entries_rise { IsStrictlyIncreasing entries.now }
    requires starts_rise { IsStrictlyIncreasing starts.now }
    ensures { IsTrue result ↔ LeadsToPlaces entries.now starts.now row.now }
{
    match *row {
        Row::Jump { to, .. } => is_one_of(starts, to),
        Row::Branch { taken, other, .. } => is_one_of(starts, taken) && is_one_of(starts, other),
        Row::Call { to, .. } => is_one_of(entries, to),
        Row::ICall { .. }
        | Row::Ret { .. }
        | Row::Begin { .. }
        | Row::End { .. }
        | Row::UseCell { .. }
        | Row::DefCell { .. }
        | Row::UseAt { .. }
        | Row::DefAt { .. }
        | Row::Check { .. } => true,
    }
}
