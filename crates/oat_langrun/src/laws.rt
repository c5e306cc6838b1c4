//! What holds of the language's runs.
ghost use Rattle.oat_langrun.specs.Laws.{EndedRunsStay, EndsAreOne, LongerRunsGoOn, RunsAreGood, RunsPass};
ghost use Rattle.oat_langrun.specs.Worked.{AttestedLoop, CellsAreShown, StepsAreOrdered, TrapsStop};

use oat_check::laws::elements_are_numbered;

/// A longer bound goes on from a shorter one.
pub fn longer_runs_go_on()
    ensures { LongerRunsGoOn }
{}

/// A run that has ended stays as it is.
pub fn ended_runs_stay()
    ensures { EndedRunsStay }
{}

/// A text has one end on its inputs, and one list of what was shown before it.
pub fn ends_are_one()
    ensures { EndsAreOne }
{}

/// Each state of a run stands at a step.
pub fn runs_are_good()
    ensures { RunsAreGood }
{
    elements_are_numbered();
}

/// Operations never nest, and each read of a critical has the value of the last assignment to it.
pub fn runs_pass()
    ensures { RunsPass }
{
    elements_are_numbered();
}

/// A loop in an operation.
pub fn attested_loop_is_shown()
    ensures { AttestedLoop }
{}

/// A trap of each kind.
pub fn traps_are_shown()
    ensures { TrapsStop }
{}

/// What comes first, and how many steps it takes.
pub fn order_is_shown()
    ensures { StepsAreOrdered }
{}

/// Operators, and cells that are assigned and read.
pub fn cells_are_shown()
    ensures { CellsAreShown }
{}
