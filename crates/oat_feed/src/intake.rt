//! Bytes that come in: of them the longest front that begins a blob is kept.

ghost use Rattle.std.specs.Prelude.{ℕ, suc, ◌<◌, ◌≤◌, List, length, take};
ghost use Rattle.oat_verify.specs.{BeginsBlob};

use crate::places::RecordPlaces;
use oat_blob::decode;
use std::alloc::{AllocError, Global};

/// The most bytes that are looked at together.
const CHUNK: usize = 4096;

/// The most bytes of a blob that are no record bytes.
const OTHER_BYTES: usize = 152;

/// The room that is kept beside the record bytes.
const ROOM: usize = OTHER_BYTES + CHUNK;

/// What may still come.
#[derive(Clone, Copy, PartialEq, Eq)]
pub enum State {
    /// The bytes that came begin a blob.
    Open,
    /// A byte came behind the front that no blob has there.
    Broken,
    /// There was no memory.
    Spent,
}

/// The longest front of the bytes that came which begins a blob.
#[derive(Drop)]
pub struct Intake {
    pub front: Vec<u8>,
    pub state: State,
}

/// How many of the bytes begin a blob.
fn begun(bytes: &[u8]) -> usize
    ensures within { result ≤ length bytes.now }
    ensures begins { BeginsBlob (take result bytes.now) }
    ensures longest { result < length bytes.now → BeginsBlob (take (suc result) bytes.now) → ⊥ }
{
    match decode(bytes) {
        Ok(_) => bytes.len(),
        Err(fault) => fault.offset,
    }
}

impl Intake {
    ghost use Rattle.std.specs.Prelude.{ℕ, ◌≡◌, ◌≤◌, List, [], ◌++◌, length, IfOk, OnOk, OnErr, IsErr};
    ghost use Rattle.oat_feed.specs.RecordBytes.{HasRecordByte};
    ghost use Rattle.oat_feed.specs.Standing.{TakesIn, IsSpent};

    pub fn new(alloc: Global) -> Result<Intake, AllocError>
        ensures { IfOk result (λ intake. TakesIn intake []) }
    {
        Ok(Intake {
            front: Vec::with_capacity(alloc, ROOM)?,
            state: State::Open,
        })
    }

    /// Puts a chunk behind the front, as far as the two begin a blob, and makes room for the next one.
    fn extend(&mut self, chunk: &[u8]) -> Result<(), AllocError>
        requires { length chunk.now ≤ CHUNK }
        ensures taken { (came : List ℕ) → TakesIn self.old came → self.old.state ≡ State.Open → OnOk result (TakesIn self.new (came ++ chunk.now)) }
        ensures starved { (came : List ℕ) → TakesIn self.old came → self.old.state ≡ State.Open → OnErr result (HasRecordByte came chunk.now) }
    {
        self.front.extend_from_slice(chunk)?;
        let begun = begun(self.front.as_slice());
        if begun < self.front.len() {
            self.front.truncate(begun);
            self.state = State::Broken;
            return Ok(());
        }
        let records = RecordPlaces::of(self.front.as_slice()).records_in(begun);
        self.front.reserve((records + ROOM).saturating_sub(begun))
    }

    fn take(&mut self, chunk: &[u8]) -> Result<(), AllocError>
        requires { length chunk.now ≤ CHUNK }
        ensures taken { (came : List ℕ) → TakesIn self.old came → OnOk result (TakesIn self.new (came ++ chunk.now)) }
        ensures starved { (came : List ℕ) → TakesIn self.old came → OnErr result (HasRecordByte came chunk.now) }
        ensures spent { OnErr result (IsSpent self.new) }
    {
        if self.state == State::Broken {
            return Ok(());
        }
        let taken = self.extend(chunk);
        if taken.is_err() {
            self.state = State::Spent;
        }
        taken
    }

    /// Takes the bytes that come next.
    pub fn piece(&mut self, bytes: &[u8]) -> Result<(), AllocError>
        ensures taken { (came : List ℕ) → TakesIn self.old came → OnOk result (TakesIn self.new (came ++ bytes.now)) }
        ensures starved { (came : List ℕ) → TakesIn self.old came → OnErr result (HasRecordByte came bytes.now) }
        ensures spent { OnErr result (IsSpent self.new) }
        ensures ended { IsSpent self.old → IsErr result }
    {
        if self.state == State::Spent {
            return Err(AllocError);
        }
        let mut done = 0;
        while done < bytes.len() {
            let end = bytes.len().min(done.saturating_add(CHUNK));
            self.take(&bytes[done..end])?;
            done = end;
        }
        Ok(())
    }
}
