//! Laws of the verdict, for proofs that rest on them: each function's contract is the law.

ghost use Rattle.oat_verify.specs.Verdict.{AcceptanceAtOnce, OneSerial, OneVerdict};

/// Bytes have one verdict.
pub fn one_verdict()
    ensures { OneVerdict }
{}

/// Bytes carry one serial number, if any.
pub fn one_serial()
    ensures { OneSerial }
{}

/// An acceptance, said at once.
pub fn acceptance_at_once()
    ensures { AcceptanceAtOnce }
{}
