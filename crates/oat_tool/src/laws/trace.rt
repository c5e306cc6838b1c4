//! Laws of `trace`.

ghost use Rattle.oat_tool.specs.TraceLaws.{OneTrace, TraceIsShown};

use oat_case::laws::writes_can_be_made;

/// What its statuses say, and its line `same`.
pub fn status()
    ensures { TraceIsShown }
{
    writes_can_be_made();
}

/// Files have one answer.
pub fn one_trace()
    ensures { OneTrace }
{}
