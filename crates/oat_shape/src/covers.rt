ghost use Rattle.std.specs.Prelude.{◌↔◌, ◌<◌, ◌^◌, IsTrue};
ghost use Rattle.oat_shape.specs.Parts.{AreApart, AreWithin, EndsBelow, IsCovered};
ghost use Rattle.oat_shape.specs.Shape.{CutsNoGroup};

use oat_map::Row;

/// Whether a place lies inside no group, behind its first byte.
pub(crate) fn is_clear(rows: &[Row], place: u64) -> bool
    requires apart { AreApart rows.now }
    requires within { AreWithin rows.now }
    ensures { IsTrue result ↔ CutsNoGroup rows.now place }
{
    end_below(rows, place) <= place
}

/// Whether a place lies in a group.
pub(crate) fn is_covered(rows: &[Row], place: u64) -> bool
    requires apart { AreApart rows.now }
    requires within { AreWithin rows.now }
    requires low { place < 2 ^ 32 }
    ensures { IsTrue result ↔ IsCovered rows.now place }
{
    place < end_below(rows, place + 1)
}

/// The end of the last group that begins below a place, or 0.
fn end_below(rows: &[Row], place: u64) -> u64
    requires apart { AreApart rows.now }
    requires within { AreWithin rows.now }
    ensures { EndsBelow rows.now place result }
{
    let next = rows.partition_point(|row| row.address() < place);
    if next == 0 {
        return 0;
    }
    rows[next - 1].after()
}
