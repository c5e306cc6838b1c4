ghost use Rattle.oat_image.specs.{address_of};
ghost use Rattle.oat_shape.specs.Lowest.{Lowest, EachAt};
ghost use Rattle.oat_shape.specs.Parts.{IsBehind};

use crate::lowest::note;
use oat_map::Row;

/// Shape rule S2: the lowest row that doesn't stand at or behind the end of the group before it.
pub(crate) fn lowest_overlap(rows: &[Row]) -> Option<u64>
    ensures { Lowest (EachAt rows.now (λ k row. address_of row) (IsBehind rows.now)) result }
{
    let mut lowest = None;
    let mut end = 0;
    for row in rows {
        let at = row.address();
        lowest = note(lowest, end <= at, at);
        end = row.after();
    }
    lowest
}
