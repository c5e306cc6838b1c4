//! The lines of an owner's replies.
#![tactic(auto)]

ghost use Rattle.std.specs.Prelude.{◌≡◌, ◌++◌, OnOk, IfOk, codes};
ghost use Rattle.std.specs.Fmt.{decimal};
ghost use Rattle.oat_report.specs.VerdictLine.{cause_text};
ghost use Rattle.oat_reply.specs.ReplyLine.{issued_text, issue_fault_text, answer_cause_text, answer_text, reply_text};

use oat_owner::{Answer, AnswerCause, IssueFault, Issued, OwnerReply};
use oat_report::{Cause, Verdict, verdict_line};
use std::alloc::{AllocError, Global};

/// A text and a number behind it.
fn numbered(alloc: Global, text: &[u8], number: usize) -> Result<Vec<u8>, AllocError>
    ensures { IfOk result (λ line. line.items ≡ text.now ++ decimal number) }
{
    let mut line = Vec::from_slice(alloc, text)?;
    line.extend_from_slice(format!(in alloc; "{number}")?.as_bytes())?;
    Ok(line)
}

fn issued_line(alloc: Global, issued: &Issued) -> Result<Vec<u8>, AllocError>
    ensures { IfOk result (λ line. line.items ≡ issued_text issued.now) }
{
    let mut line = numbered(alloc, b"challenge ", issued.number as usize)?;
    line.extend_from_slice(b" ")?;
    line.extend_from_slice(hex::encode(alloc, issued.frame.as_slice())?.as_bytes())?;
    Ok(line)
}

fn unissued_line(alloc: Global, fault: IssueFault) -> Result<Vec<u8>, AllocError>
    ensures { IfOk result (λ line. line.items ≡ codes "refused challenge " ++ issue_fault_text fault) }
{
    match fault {
        IssueFault::UnknownDevice => Vec::from_slice(alloc, b"refused challenge UnknownDevice"),
        IssueFault::NoOperation => Vec::from_slice(alloc, b"refused challenge NoOperation"),
        IssueFault::UsedNonce(number) => {
            numbered(alloc, b"refused challenge UsedNonce ", number as usize)
        }
        IssueFault::Full => Vec::from_slice(alloc, b"refused challenge Full"),
        IssueFault::Memory => Vec::from_slice(alloc, b"refused challenge Memory"),
    }
}

/// Adds the cause of a verdict that refuses, as its line says it behind `refuse `.
fn put_cause(line: &mut Vec<u8>, cause: Cause) -> Result<(), AllocError>
    ensures { OnOk result (line.new.items ≡ line.old.items ++ cause_text cause) }
{
    let verdict = verdict_line(*line.allocator(), None, &Verdict::Refuse(cause))?;
    line.extend_from_slice(&verdict[7..])
}

fn rejected_line(alloc: Global, number: u32, cause: Cause) -> Result<Vec<u8>, AllocError>
    ensures { IfOk result (λ line. line.items ≡ codes "refused answer " ++ answer_cause_text (AnswerCause.Verdict number cause)) }
{
    let mut line = numbered(alloc, b"refused answer verdict ", number as usize)?;
    line.extend_from_slice(b" ")?;
    put_cause(&mut line, cause)?;
    Ok(line)
}

fn refused_line(alloc: Global, cause: AnswerCause) -> Result<Vec<u8>, AllocError>
    ensures { IfOk result (λ line. line.items ≡ codes "refused answer " ++ answer_cause_text cause) }
{
    match cause {
        AnswerCause::Frame(offset) => numbered(alloc, b"refused answer frame ", offset),
        AnswerCause::UnknownDevice => Vec::from_slice(alloc, b"refused answer device"),
        AnswerCause::NoChallenge => Vec::from_slice(alloc, b"refused answer challenge"),
        AnswerCause::Spent(number) => { numbered(alloc, b"refused answer spent ", number as usize) }
        AnswerCause::Verdict { number, cause } => rejected_line(alloc, number, cause),
    }
}

/// The line of a reply, without its line end. The lines of an accepted path stand behind it.
///
/// The error is want of memory.
pub fn reply_line(alloc: Global, reply: &OwnerReply) -> Result<Vec<u8>, AllocError>
    ensures { IfOk result (λ line. line.items ≡ reply_text reply.now) }
{
    match reply {
        OwnerReply::Issue(Ok(issued)) => issued_line(alloc, issued),
        OwnerReply::Issue(Err(fault)) => unissued_line(alloc, *fault),
        OwnerReply::Answer(Answer::Accepted { number, .. }) => {
            numbered(alloc, b"accepted ", *number as usize)
        }
        OwnerReply::Answer(Answer::Refused(cause)) => refused_line(alloc, *cause),
    }
}
