//! Laws of `drill`.

ghost use Rattle.oat_tool.specs.DrillLaws.{DrillIsAccepted};

use oat_attestation::laws::{attestations_are_complete, honest_runs_are_attested};
use oat_check::laws::calls_are_counted;
use oat_make::laws::{drills_are_checked, drills_can_be_attested, drills_complete};

/// The drill of each number is accepted.
pub fn accepted()
    ensures { DrillIsAccepted }
{
    attestations_are_complete();
    honest_runs_are_attested();
    calls_are_counted();
    drills_are_checked();
    drills_can_be_attested();
    drills_complete();
}
