//! Laws of the drill, each the contract of a function that does nothing.
ghost use Rattle.oat_make.specs.Laws.{DrillTextsAreShort, DrillsAreChecked, DrillsAreWritten, DrillsCanBeAttested, DrillsComplete, DrillsFit};
ghost use Rattle.oat_make.specs.Worked.{FirstDrillIsShown};

use oat_text::laws::printed_is_text;

/// The text is one of the program.
pub fn drills_are_written()
    ensures { DrillsAreWritten }
{
    printed_is_text();
}

/// The text is short.
pub fn drill_texts_are_short()
    ensures { DrillTextsAreShort }
{}

/// The program keeps the checking rules.
pub fn drills_are_checked()
    ensures { DrillsAreChecked }
{}

/// The words of its code are few.
pub fn drills_fit()
    ensures { DrillsFit }
{}

/// It runs to its end, and its operation completes.
pub fn drills_complete()
    ensures { DrillsComplete }
{}

/// Its case leaves room for that.
pub fn drills_can_be_attested()
    ensures { DrillsCanBeAttested }
{}

/// The drill of 1 does what another program computed.
pub fn first_drill_is_shown()
    ensures { FirstDrillIsShown }
{}
