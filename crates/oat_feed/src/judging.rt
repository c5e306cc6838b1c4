ghost use Rattle.std.specs.Prelude.{◌≡◌, ℕ, List, IfOk, IsSome};
ghost use Rattle.oat_verify.specs.{Edge, start, returns_of, Body, StandsFor};
ghost use Rattle.oat_verify.specs.Verdict.{subject_of, Judges, JudgesPath, Replays, CarriesSerial};
ghost use Rattle.oat_feed.specs.RecordPlaces.{HoldsRecords, kept_bits, kept_targets};
ghost use Rattle.oat_feed.specs.Verdict.{IsFeedVerdict, AreRecordsOf, Tells};

use crate::places::RecordPlaces;
use crate::verdict::FeedVerdict;
use oat_blob::{BlobRef, BodyHead, decode};
use oat_replay::{Replay, Turn};
use oat_shape::Shaped;
use oat_verify::{Cause, Chain, Session, absorb_return, report, screen, window_head};
use std::alloc::{AllocError, Global};

/// The most turns of a replay that lead on.
const PATH_LIMIT: u32 = 4_194_304;

/// A verdict on bytes, and what they show.
#[derive(Drop)]
pub struct Judged {
    pub verdict: FeedVerdict,
    pub places: RecordPlaces,
    pub serial: Option<u32>,
}

/// What is looked at once the replay has found a path, of which the chain has the returns.
fn judge_chain(body: &BodyHead, chain: &Chain) -> FeedVerdict
    ensures { (head : List ℕ) (blob : Body) (path : List Edge) → StandsFor chain.now head (returns_of path) → blob.head ≡ body.now
        → Tells (JudgesPath head blob path) result }
{
    match report(body, &chain.digest()) {
        Some(cause) => FeedVerdict::Refuse(cause),
        None => FeedVerdict::Accept,
    }
}

/// The verdict of the replay, which keeps no path.
fn replay(
    alloc: Global,
    shaped: &Shaped,
    session: &Session,
    blob: &BlobRef<'_>,
) -> Result<FeedVerdict, AllocError>
    requires { IsSome (start shaped.now.map.rows session.now.op) }
    ensures { IfOk result (Tells (Replays (subject_of shaped.now session.now) blob.now.body)) }
{
    let body = blob.head();
    let head = window_head(&session.nonce, session.op, &shaped.digest(), body.serial);
    let mut chain = Chain::start(&head);
    let mut replay = Replay::new(alloc, &shaped.image().map, session.op)?;
    for turn in 1..PATH_LIMIT + 2 {
        match replay.turn(blob) {
            Turn::Moved(edge) => absorb_return(&mut chain, &edge),
            Turn::Passed => {}
            Turn::Done(_) => return Ok(judge_chain(&body, &chain)),
            Turn::Stuck(cause) => return Ok(FeedVerdict::Refuse(Cause::Replay { cause, turn })),
        }
    }
    unreachable!()
}

/// The verdict on bytes that are a blob.
fn judge(
    alloc: Global,
    shaped: &Shaped,
    session: &Session,
    blob: &BlobRef<'_>,
) -> Result<FeedVerdict, AllocError>
    requires { IsSome (start shaped.now.map.rows session.now.op) }
    ensures { IfOk result (Tells (Judges (subject_of shaped.now session.now) blob.now.body blob.now.mac)) }
{
    match screen(shaped, session, blob) {
        Some(cause) => Ok(FeedVerdict::Refuse(cause)),
        None => replay(alloc, shaped, session, blob),
    }
}

/// The verdict on bytes, the places of their records, and their serial number.
pub fn judge_bytes(
    alloc: Global,
    shaped: &Shaped,
    session: &Session,
    bytes: &[u8],
) -> Result<Judged, AllocError>
    requires { IsSome (start shaped.now.map.rows session.now.op) }
    ensures verdict { IfOk result (λ judged. IsFeedVerdict (subject_of shaped.now session.now) bytes.now judged.verdict) }
    ensures serial { IfOk result (λ judged. CarriesSerial bytes.now judged.serial) }
    ensures within { IfOk result (λ judged. HoldsRecords judged.places bytes.now) }
    ensures records { IfOk result (λ judged. AreRecordsOf bytes.now (record { bits = kept_bits judged.places bytes.now; targets = kept_targets judged.places bytes.now })) }
{
    match decode(bytes) {
        Ok(blob) => Ok(Judged {
            verdict: judge(alloc, shaped, session, &blob)?,
            places: RecordPlaces::of(bytes),
            serial: blob.head().serial,
        }),
        Err(fault) => Ok(Judged {
            verdict: FeedVerdict::Refuse(Cause::Form(fault.offset)),
            places: RecordPlaces::NONE,
            serial: None,
        }),
    }
}
