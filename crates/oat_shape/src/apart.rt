ghost use Rattle.std.specs.Prelude.{IsSome};
ghost use Rattle.oat_a64.specs.Step.{word_at};
ghost use Rattle.oat_shape.specs.Lowest.{Lowest, EachAt};
ghost use Rattle.oat_shape.specs.Parts.{AreApart, AreWithin};
ghost use Rattle.oat_shape.specs.Shape.{CutsNoGroup};

use crate::code::has_word;
use crate::covers::is_clear;
use crate::lowest::note;
use oat_map::Row;

/// Shape rule S5: the lowest of these places that lies inside a group.
pub(crate) fn lowest_inside(rows: &[Row], places: &[u64]) -> Option<u64>
    requires apart { AreApart rows.now }
    requires within { AreWithin rows.now }
    ensures { Lowest (EachAt places.now (λ k place. place) (λ k place. CutsNoGroup rows.now place)) result }
{
    let mut lowest = None;
    for place in places {
        lowest = note(lowest, is_clear(rows, *place), *place);
    }
    lowest
}

/// Shape rule S6: the lowest of these places that isn't the address of a word of code.
pub(crate) fn lowest_off_code(code: &[u32], places: &[u64]) -> Option<u64>
    ensures { Lowest (EachAt places.now (λ k place. place) (λ k place. IsSome (word_at code.now place))) result }
{
    let mut lowest = None;
    for place in places {
        lowest = note(lowest, has_word(code, *place), *place);
    }
    lowest
}
