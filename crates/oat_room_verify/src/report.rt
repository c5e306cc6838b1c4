ghost use Rattle.std.specs.Prelude.{◌≡◌, List, IfOk, IsSome};
ghost use Rattle.oat_shown.specs.{Edge, start, Verdict, verdict_text, line, PutsAll, put_of};
ghost use Rattle.oat_feed.specs.Verdict.{feed_verdict_of};
ghost use Rattle.oat_shown.specs.Report.{report_text, ended_of};
ghost use Rattle.oat_room_verify.specs.Settles.{HasPath, IsPathOf, PutsPath, TellsVerdict};

use oat_feed::{FeedVerdict, Kept, Settled};
use oat_page::{Ended, put_all};
use oat_replay::{Replay, Turn};
use oat_shape::Shaped;
use oat_shown::{Edge, Sink, SinkFault, line_of, put_edge};
use oat_verify::{Path, Verdict};
use std::alloc::{AllocError, Global};

/// The most turns of a replay that lead on.
pub const PATH_LIMIT: u32 = 4_194_304;

/// The line of what was settled.
fn first_line(alloc: Global, settled: &Settled) -> Result<Vec<u8>, AllocError>
    ensures { (verdict : Verdict) → settled.now.verdict ≡ feed_verdict_of verdict → IfOk result (λ text. text.items ≡ line (verdict_text settled.now.serial verdict)) }
{
    let told = match settled.verdict {
        FeedVerdict::Accept => Verdict::Accept(Path::from_vec(Vec::new(alloc))),
        FeedVerdict::Refuse(cause) => Verdict::Refuse(cause),
    };
    line_of(alloc, settled.serial, &told)
}

/// How a verdict ends the work.
pub fn ended(verdict: FeedVerdict) -> Ended
    ensures { (of : Verdict) → verdict ≡ feed_verdict_of of → result ≡ ended_of of }
{
    match verdict {
        FeedVerdict::Accept => Ended::Done,
        FeedVerdict::Refuse(_) => Ended::Rejected,
    }
}

/// Puts the lines of the path of the walk with these records, each as the replay finds it.
fn put_path<S: Sink>(
    alloc: Global,
    sink: &mut S,
    shaped: &Shaped,
    op: u16,
    kept: &Kept,
) -> Result<(), SinkFault>
    requires begun { IsSome (start shaped.now.map.rows op) }
    requires walked { (path : List Edge) × IsPathOf shaped.now.map op kept.now path }
    ensures { PutsPath shaped.now.map op kept.now (put_of S.told S.faults sink.old sink.new) result }
{
    let map = &shaped.image().map;
    let Ok(mut replay) = Replay::new(alloc, map, op) else {
        return Err(SinkFault::Memory);
    };
    for turn in 0..PATH_LIMIT + 1 {
        match replay.turn(kept) {
            Turn::Moved(edge) => put_edge(alloc, sink, map, &edge)?,
            Turn::Passed => {}
            Turn::Done(edge) => return put_edge(alloc, sink, map, &edge),
            Turn::Stuck(_) => unreachable!(),
        }
    }
    unreachable!()
}

/// Puts the verdict's line, and after an acceptance those of the path.
pub fn put_report<S: Sink>(
    alloc: Global,
    sink: &mut S,
    shaped: &Shaped,
    op: u16,
    settled: &Settled,
) -> Result<(), SinkFault>
    requires begun { IsSome (start shaped.now.map.rows op) }
    requires path { HasPath shaped.now.map op settled.now }
    ensures { (verdict : Verdict) → TellsVerdict shaped.now.map op settled.now verdict
        → PutsAll (report_text shaped.now.map settled.now.serial verdict) (put_of S.told S.faults sink.old sink.new) result }
{
    let Ok(text) = first_line(alloc, settled) else {
        return Err(SinkFault::Memory);
    };
    put_all(sink, text.as_slice())?;
    match settled.verdict {
        FeedVerdict::Accept => put_path(alloc, sink, shaped, op, &settled.kept),
        FeedVerdict::Refuse(_) => Ok(()),
    }
}
