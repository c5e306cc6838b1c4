//! Laws of `verify`.

ghost use Rattle.oat_tool.specs.VerifyLaws.{AcceptanceIsReported, RefusalIsReported, VerdictIsSealed, OneVerification};

/// What its statuses say.
pub fn statuses()
    ensures accepted { AcceptanceIsReported }
    ensures refused { RefusalIsReported }
    ensures sealed { VerdictIsSealed }
{}

/// Files have one answer.
pub fn one_verification()
    ensures { OneVerification }
{}
