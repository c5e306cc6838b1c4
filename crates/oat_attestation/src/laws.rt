//! Laws of attestations, each the contract of a function that does nothing.
ghost use Rattle.oat_attestation.specs.Laws.{
  AttestationsAreComplete,
  HonestRunsAreAttested,
  RunsAreHeadlined,
  WindowsAreJudged,
};

use oat_attest::laws::{headline, sound_runs_are_accepted};
use oat_check::laws::calls_are_counted;
use oat_device::laws::windows_are_counted;
use oat_journal::laws::bodies_are_called_for;
use oat_verify::laws::acceptance_at_once;

/// There is a verdict for each blob, and as many as the session calls for exactly where its last window sealed; else fewer.
pub fn windows_are_judged()
    ensures { WindowsAreJudged }
{
    windows_are_counted();
}

/// The headline: when the verifier accepts the blob of a device run, whatever was written into data memory between
/// its instructions, the path it prints is the path that the run executed in the operation, and each checked critical
/// use there read its last defined value, or the run's return sequence and the replay's exhibit two different messages
/// with one SHA-256 digest.
pub fn runs_are_headlined()
    ensures { RunsAreHeadlined }
{
    headline();
    acceptance_at_once();
}

/// Honest runs are accepted: where nothing is written, the run ends as the source does, and each verdict is the acceptance of the path of that call of the source.
pub fn honest_runs_are_attested()
    ensures { HonestRunsAreAttested }
{
    sound_runs_are_accepted();
}

/// And where the source completes all calls that are measured, and the case has the steps for that, each of them is accepted.
pub fn attestations_are_complete()
    ensures { AttestationsAreComplete }
{
    honest_runs_are_attested();
    calls_are_counted();
    bodies_are_called_for();
}
