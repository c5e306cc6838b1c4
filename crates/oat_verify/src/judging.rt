ghost use Rattle.std.specs.Prelude.{◌≡◌, ◌↔◌, ◌++◌, ◌∷◌, [], ℕ, List, IsTrue, IfOk};
ghost use Rattle.oat_replay.specs.{hmac, Body, covered_of};
ghost use Rattle.oat_shape.specs.{Edge, returns_of, IsOperation};
ghost use Rattle.oat_chain.specs.Chain.{chain};
ghost use Rattle.oat_chain.specs.Standing.{StandsFor};
ghost use Rattle.oat_verify.specs.Verdict.{subject_of, FitsSession, Judges, JudgesPath, Replays, Screens, IsVerdict, verdict_by};

use crate::verdict::{Cause, Verdict};
use oat_blob::{BlobRef, BodyHead, Mac, decode};
use oat_case::Session;
use oat_chain::{Chain, window_head};
use oat_replay::{Edge, Path, WalkFault, walk};
use oat_shape::Shaped;
use std::alloc::{AllocError, Global};

fn has_right_mac(session: &Session, blob: &BlobRef<'_>) -> bool
    ensures { IsTrue result ↔ (blob.now.mac ≡ hmac session.now.key (covered_of blob.now.body)) }
{
    let mut mac = Mac::new(session.key.as_slice());
    mac.update(blob.covered());
    mac.finish() == blob.mac()
}

/// Whether a session of so many calls has a window with such a serial number, or one without.
fn fits_session(serial: Option<u32>, calls: Option<u32>) -> bool
    ensures { IsTrue result ↔ FitsSession serial calls }
{
    match (serial, calls) {
        (None, None) => true,
        (Some(serial), Some(calls)) => serial < calls,
        _ => false,
    }
}

/// Chains the return that an edge makes, if it makes one.
pub fn absorb_return(chain: &mut Chain, edge: &Edge)
    ensures { (head returns : List ℕ) → StandsFor chain.old head returns
        → StandsFor chain.new head (returns ++ returns_of (edge.now ∷ [])) }
{
    if let Edge::Ret { to, .. } = edge {
        chain.absorb(*to);
    }
}

/// The chain of a path's returns, behind the window's head.
fn hash_of(head: &[u8; 50], path: &[Edge]) -> [u8; 32]
    ensures { result ≡ chain head.now (returns_of path.now) }
{
    let mut chain = Chain::start(head);
    for edge in path {
        absorb_return(&mut chain, edge);
    }
    chain.digest()
}

/// What stands against a path that the replay has found: its hash, by the chain of its returns, or a violation.
pub fn report(body: &BodyHead, hash: &[u8; 32]) -> Option<Cause>
    ensures { (head : List ℕ) (blob : Body) (path : List Edge) → blob.head ≡ body.now → hash.now ≡ chain head (returns_of path)
        → JudgesPath head blob path (verdict_by path result) }
{
    if body.hash != *hash {
        return Some(Cause::Hash);
    }
    match body.violation {
        Some(violation) => Some(Cause::Critical(violation)),
        None => None,
    }
}

/// What is looked at once the replay has found a path.
fn judge_path(head: &[u8; 50], blob: &BlobRef<'_>, path: Path) -> Verdict
    ensures { JudgesPath head.now blob.now.body path result }
{
    match report(&blob.head(), &hash_of(head, path.as_slice())) {
        Some(cause) => Verdict::Refuse(cause),
        None => Verdict::Accept(path),
    }
}

fn replay(
    alloc: Global,
    shaped: &Shaped,
    session: &Session,
    blob: &BlobRef<'_>,
) -> Result<Verdict, AllocError>
    requires { IsOperation shaped.now.map session.now.op }
    ensures { IfOk result (Replays (subject_of shaped.now session.now) blob.now.body) }
{
    let head = window_head(
        &session.nonce,
        session.op,
        &shaped.digest(),
        blob.head().serial,
    );
    match walk(alloc, &shaped.image().map, session.op, blob) {
        Ok(path) => Ok(judge_path(&head, blob, path)),
        Err(WalkFault::Stuck { cause, turn }) => Ok(Verdict::Refuse(Cause::Replay { cause, turn })),
        Err(WalkFault::Memory) => Err(AllocError),
    }
}

/// The first thing that stands against a blob before its replay: its MAC, nonce, serial number, operation or image.
pub fn screen(shaped: &Shaped, session: &Session, blob: &BlobRef<'_>) -> Option<Cause>
    ensures { Screens (subject_of shaped.now session.now) blob.now.body blob.now.mac result }
{
    let head = blob.head();
    if !has_right_mac(session, blob) {
        return Some(Cause::Mac);
    }
    if head.nonce != session.nonce {
        return Some(Cause::Nonce);
    }
    if !fits_session(head.serial, session.calls) {
        return Some(Cause::Serial(head.serial));
    }
    if head.op != session.op {
        return Some(Cause::Operation);
    }
    if head.digest != shaped.digest() {
        return Some(Cause::Image);
    }
    None
}

/// The verdict on bytes that are a blob.
fn judge(
    alloc: Global,
    shaped: &Shaped,
    session: &Session,
    blob: &BlobRef<'_>,
) -> Result<Verdict, AllocError>
    requires { IsOperation shaped.now.map session.now.op }
    ensures { IfOk result (Judges (subject_of shaped.now session.now) blob.now.body blob.now.mac) }
{
    match screen(shaped, session, blob) {
        Some(cause) => Ok(Verdict::Refuse(cause)),
        None => replay(alloc, shaped, session, blob),
    }
}

/// The verdict on a blob's bytes, in a session for one of the image's operations.
///
/// The error is want of memory.
pub fn verify(
    alloc: Global,
    shaped: &Shaped,
    session: &Session,
    blob: &[u8],
) -> Result<Verdict, AllocError>
    requires { IsOperation shaped.now.map session.now.op }
    ensures { IfOk result (IsVerdict (subject_of shaped.now session.now) blob.now) }
{
    match decode(blob) {
        Ok(blob) => judge(alloc, shaped, session, &blob),
        Err(fault) => Ok(Verdict::Refuse(Cause::Form(fault.offset))),
    }
}
