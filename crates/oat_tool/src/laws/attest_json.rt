//! Laws of `attest --json`.

ghost use Rattle.oat_tool.specs.JsonLaws.{JsonIsShown};

use oat_attestation::laws::windows_are_judged;

/// What its statuses say.
pub fn status()
    ensures { JsonIsShown }
{
    windows_are_judged();
}
