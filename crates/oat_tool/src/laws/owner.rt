//! Laws of `owner`.

ghost use Rattle.oat_tool.specs.OwnerLaws.{AcceptancesAreOfRuns, NumbersAreAcceptedOnce, RefusalComesFirst, RepliesArePut, ScriptIsServed, ServedIsPut, WantIsBehindReplies};

use oat_owner::laws::{accepted_by_verdict, accepted_once};

/// What its statuses say.
pub fn statuses()
    ensures served { ScriptIsServed }
    ensures wanting { WantIsBehindReplies }
    ensures refused { RefusalComesFirst }
{}

/// What is put of its replies.
pub fn replies_are_put()
    ensures served { ServedIsPut }
    ensures front { RepliesArePut }
{}

/// What its acceptances are good for.
pub fn acceptances()
    ensures once { NumbersAreAcceptedOnce }
    ensures runs { AcceptancesAreOfRuns }
{
    accepted_once();
    accepted_by_verdict();
}
