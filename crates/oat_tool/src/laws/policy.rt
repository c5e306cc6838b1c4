//! Laws of `policy`.

ghost use Rattle.oat_tool.specs.PolicyLaws.{PolicyIsReported, PolicyIsSaid, VerifyIsPutFirst, PolicyIsHeadlined, OnePolicyAnswer};

/// What its statuses say.
pub fn statuses()
    ensures reported { PolicyIsReported }
    ensures said { PolicyIsSaid }
{}

/// What it puts of the verdict, as `verify` does, and what that claims.
pub fn carries_the_verdict()
    ensures first { VerifyIsPutFirst }
    ensures headline { PolicyIsHeadlined }
{}

/// Files have one answer.
pub fn one_policy_answer()
    ensures { OnePolicyAnswer }
{}
