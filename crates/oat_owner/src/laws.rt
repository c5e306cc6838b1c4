//! Laws of an owner's replies, in any order and number of calls: each function's contract is the law.

ghost use Rattle.oat_owner.specs.Laws.{AcceptedByVerdict, AcceptedIsIssued, AcceptedOnce, AnswerFramesTell, CallsGiveReplies, CallsGoOn, ChallengeFramesTell, OneFrameOffset, OneReply};

/// Each reply is the one that the calls and replies before it give.
pub fn calls_give_replies()
    ensures { CallsGiveReplies }
{}

/// The calls and replies before it leave one reply.
pub fn one_reply()
    ensures { OneReply }
{}

/// No number is accepted twice.
pub fn accepted_once()
    ensures { AcceptedOnce }
{}

/// Each acceptance is the verdict's, for the challenge's own device, operation and nonce.
pub fn accepted_by_verdict()
    ensures { AcceptedByVerdict }
{}

/// One call more goes on from where the calls before it led.
pub fn calls_go_on()
    ensures { CallsGoOn }
{}

/// The number of an acceptance is that of an issued challenge.
pub fn accepted_is_issued()
    ensures { AcceptedIsIssued }
{}

/// Frames tell what they bring.
pub fn frames_tell()
    ensures challenges { ChallengeFramesTell }
    ensures answers { AnswerFramesTell }
    ensures offsets { OneFrameOffset }
{}
