ghost use Rattle.std.specs.Prelude.{◌≡◌, IfOk};
ghost use Rattle.oat_shown.specs.{put_of, line, PutsAll};
ghost use Rattle.oat_reply.specs.ReplyLine.{reply_text};
ghost use Rattle.oat_owner.specs.declared.call.OwnerReply.TheVariants as replies;
ghost use Rattle.oat_room_owner.specs.Owner.{accepted_path, reply_lines};
ghost use Rattle.oat_room_owner.specs.Serving.{IsOfIssued, PutsReplies};

use oat_owner::laws::{accepted_is_issued, calls_go_on};
use oat_owner::{Answer, Owner, OwnerCall, OwnerReply};
use oat_page::put_all;
use oat_reply::reply_line;
use oat_shown::{Sink, SinkFault, put_edges};
use std::alloc::{AllocError, Global};

/// The line of a reply, with its line end.
fn whole_line(alloc: Global, reply: &OwnerReply) -> Result<Vec<u8>, AllocError>
    ensures { IfOk result (λ text. text.items ≡ line (reply_text reply.now)) }
{
    let mut text = reply_line(alloc, reply)?;
    text.extend_from_slice(b"\n")?;
    Ok(text)
}

fn put_line<S: Sink>(alloc: Global, sink: &mut S, reply: &OwnerReply) -> Result<(), SinkFault>
    ensures { PutsAll (line (reply_text reply.now)) (put_of S.told S.faults sink.old sink.new) result }
{
    match whole_line(alloc, reply) {
        Ok(text) => put_all(sink, text.as_slice()),
        Err(_) => Err(SinkFault::Memory),
    }
}

/// Puts the lines of the path, if the answer was accepted.
fn put_accepted<S: Sink>(
    alloc: Global,
    sink: &mut S,
    owner: &Owner,
    answer: &Answer,
) -> Result<(), SinkFault>
    requires { IsOfIssued owner.now (replies.Answer answer.now) }
    ensures { PutsAll (accepted_path owner.now (replies.Answer answer.now)) (put_of S.told S.faults sink.old sink.new) result }
{
    match answer {
        Answer::Accepted { number, path } => {
            let image = owner.shaped(*number).image();
            put_edges(alloc, sink, &image.map, path.as_slice())
        }
        Answer::Refused(_) => Ok(()),
    }
}

/// Puts the lines of a reply that the owner gave.
fn put_reply<S: Sink>(
    alloc: Global,
    sink: &mut S,
    owner: &Owner,
    reply: &OwnerReply,
) -> Result<(), SinkFault>
    requires { IsOfIssued owner.now reply.now }
    ensures { PutsAll (reply_lines owner.now reply.now) (put_of S.told S.faults sink.old sink.new) result }
{
    put_line(alloc, sink, reply)?;
    match reply {
        OwnerReply::Answer(answer) => put_accepted(alloc, sink, owner, answer),
        OwnerReply::Issue(_) => Ok(()),
    }
}

/// Puts the replies to calls in their order, each as it comes, until a put fails or memory is wanting.
pub fn put_replies<S: Sink>(
    alloc: Global,
    sink: &mut S,
    owner: &mut Owner,
    calls: &[OwnerCall],
) -> Result<(), SinkFault>
    ensures { PutsReplies owner.old calls.now (put_of S.told S.faults sink.old sink.new) result }
{
    calls_go_on();
    accepted_is_issued();
    for call in calls {
        let Ok(reply) = owner.call(alloc, call) else {
            return Err(SinkFault::Memory);
        };
        put_reply(alloc, sink, owner, &reply)?;
    }
    Ok(())
}
