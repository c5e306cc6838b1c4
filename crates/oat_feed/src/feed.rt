ghost use Rattle.std.specs.Prelude.{IsSome};
ghost use Rattle.std.proofs.Props.{props};
ghost use Rattle.oat_verify.specs.{start};

use crate::intake::{Intake, State};
use crate::judging::judge_bytes;
use crate::kept::Kept;
use crate::places::RecordPlaces;
use crate::verdict::{FeedVerdict, Settled};
use oat_shape::Shaped;
use oat_verify::{Cause, Session};
use std::alloc::{AllocError, Global};

/// Takes a blob's bytes in pieces, and then gives the verdict on all of them.
#[derive(Drop)]
pub struct Feed<'a> {
    shaped: &'a Shaped,
    session: &'a Session,
    intake: Intake,
    ghost begun: { IsSome (start shaped.now.map.rows session.now.op) } by { Prim.hlevel props },
}

impl<'a> Feed<'a> {
    ghost use Rattle.std.specs.Prelude.{ℕ, ◌≡◌, List, [], ◌++◌, IfOk, OnOk, OnErr, IsErr};
    ghost use Rattle.oat_verify.specs.{IsOperation};
    ghost use Rattle.oat_verify.specs.Verdict.{Subject, subject_of, CarriesSerial};
    ghost use Rattle.oat_feed.specs.RecordBytes.{HasRecordByte};
    ghost use Rattle.oat_feed.specs.Verdict.{IsFeedVerdict, AreRecordsOf};
    ghost use Rattle.oat_feed.specs.Standing.{HasBeenFed, IsSpentFeed};

    /// A feed of no bytes, in a session for one of the image's operations.
    pub fn new(
        alloc: Global,
        shaped: &'a Shaped,
        session: &'a Session,
    ) -> Result<Feed<'a>, AllocError>
        requires { IsOperation shaped.now.map session.now.op }
        ensures { IfOk result (λ feed. HasBeenFed feed (subject_of shaped.now session.now) []) }
    {
        Ok(Feed {
            shaped,
            session,
            intake: Intake::new(alloc)?,
        })
    }

    /// Takes the bytes that come next.
    ///
    /// The error is want of memory: it comes where one of these bytes is a record byte, or once it has come before.
    pub fn piece(&mut self, bytes: &[u8]) -> Result<(), AllocError>
        ensures taken { (s : Subject) (came : List ℕ) → HasBeenFed self.old s came → OnOk result (HasBeenFed self.new s (came ++ bytes.now)) }
        ensures starved { (s : Subject) (came : List ℕ) → HasBeenFed self.old s came → OnErr result (HasRecordByte came bytes.now) }
        ensures spent { OnErr result (IsSpentFeed self.new) }
        ensures ended { IsSpentFeed self.old → IsErr result }
    {
        self.intake.piece(bytes)
    }

    /// The verdict on the bytes that came, and the records of the blob that they are.
    ///
    /// The error is want of memory.
    pub fn settle(self, alloc: Global) -> Result<Settled, AllocError>
        ensures verdict { (s : Subject) (came : List ℕ) → HasBeenFed self.entry s came → IfOk result (λ settled. IsFeedVerdict s came settled.verdict) }
        ensures kept { (s : Subject) (came : List ℕ) → HasBeenFed self.entry s came → IfOk result (λ settled. AreRecordsOf came settled.kept) }
        ensures serial { (s : Subject) (came : List ℕ) → HasBeenFed self.entry s came → IfOk result (λ settled. CarriesSerial came settled.serial) }
        ensures ended { IsSpentFeed self.entry → IsErr result }
    {
        match self.intake.state {
            State::Open => {
                let front = self.intake.front;
                let judged = judge_bytes(alloc, self.shaped, self.session, front.as_slice())?;
                Ok(Settled {
                    verdict: judged.verdict,
                    kept: Kept::at(judged.places, front),
                    serial: judged.serial,
                })
            }
            State::Broken => Ok(Settled {
                verdict: FeedVerdict::Refuse(Cause::Form(self.intake.front.len())),
                kept: Kept::at(RecordPlaces::NONE, self.intake.front),
                serial: None,
            }),
            State::Spent => Err(AllocError),
        }
    }

    /// The verdict on the bytes that came.
    ///
    /// The error is want of memory.
    pub fn finish(self, alloc: Global) -> Result<FeedVerdict, AllocError>
        ensures verdict { (s : Subject) (came : List ℕ) → HasBeenFed self.entry s came → IfOk result (IsFeedVerdict s came) }
        ensures ended { IsSpentFeed self.entry → IsErr result }
    {
        let settled = self.settle(alloc)?;
        Ok(settled.verdict)
    }
}
