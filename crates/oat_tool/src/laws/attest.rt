//! Laws of `attest`.

ghost use Rattle.oat_tool.specs.AttestLaws.{AttestIsComplete, AttestIsHonest, AttestIsShown};

use oat_attestation::laws::{
    attestations_are_complete, honest_runs_are_attested, windows_are_judged,
};

/// What its statuses say.
pub fn status()
    ensures { AttestIsShown }
{
    windows_are_judged();
}

/// Where nothing is written, each verdict is the acceptance of the path of its call of the source.
pub fn honest()
    ensures { AttestIsHonest }
{
    honest_runs_are_attested();
}

/// And where the source completes all calls that are measured, and the case has the steps for that, all are accepted.
pub fn complete()
    ensures { AttestIsComplete }
{
    attestations_are_complete();
}
