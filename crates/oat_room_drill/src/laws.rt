//! What the work of `drill` rests on.

ghost use Rattle.oat_room_drill.specs.Drill.{DrillsHaveOperation, FirstVerdictAccepts};

use oat_attestation::laws::{attestations_are_complete, honest_runs_are_attested};
use oat_check::laws::calls_are_counted;
use oat_make::laws::{drills_are_checked, drills_can_be_attested, drills_complete};

/// Its case is for an operation of its program.
pub fn operations()
    ensures { DrillsHaveOperation }
{
    drills_can_be_attested();
}

/// The first verdict on each number's drill is an acceptance.
pub fn first_verdict()
    ensures { FirstVerdictAccepts }
{
    attestations_are_complete();
    honest_runs_are_attested();
    calls_are_counted();
    drills_are_checked();
    drills_can_be_attested();
    drills_complete();
}
