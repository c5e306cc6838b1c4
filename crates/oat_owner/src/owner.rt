ghost use Rattle.std.specs.Prelude.{◌≡◌, ◌<◌, [], Some, length, IfOk, IfErr, OnOk, OnErr};
ghost use Rattle.oat_verify.specs.{IsOperation};
ghost use Rattle.oat_owner.specs.Ledger.{repeated_id, shaped_of};
ghost use Rattle.oat_owner.specs.Refusal.{IsOwnerFault};
ghost use Rattle.oat_owner.specs.Replies.{IssuesOrStarves, IsAnswerReply, behind_issue, behind_answer, judged, challenge_session};
ghost use Rattle.oat_owner.specs.Exchanges.{IsReply, behind};
ghost use Rattle.oat_verify.specs.Verdict.{subject_of, IsVerdict};

use crate::call::{OwnerCall, OwnerReply};
use crate::challenge::{Challenge, Challenges};
use crate::device::{Devices, Known, OwnerRefusal};
use crate::frame::{challenge_frame, read_answer};
use oat_case::{Bytes, Session};
use oat_list::Listed;
use oat_verify::{Cause, Path, Shaped, Verdict, verify};
use std::alloc::{AllocError, Global};
use std::marker::Model;

/// A challenge that was issued.
#[derive(Drop)]
pub struct Issued {
    /// How many were issued before.
    pub number: u32,
    /// What is sent to the device.
    pub frame: Bytes,
}

/// Why a challenge isn't issued: the first of these that stands.
#[derive(Clone, Copy)]
pub enum IssueFault {
    /// No known device has the id.
    UnknownDevice,
    /// The map of the device's image has no such operation.
    NoOperation,
    /// The challenge with this number, to whichever device, has the nonce.
    UsedNonce(u32),
    /// As many challenges were issued as an owner issues.
    Full,
    /// There was no memory.
    Memory,
}

impl From<AllocError> for IssueFault {
    ghost use Rattle.oat_owner.specs.declared.owner.IssueFault.TheVariants.{Memory};

    ghost from_gives = { λ _ e. e ≡ Memory };

    fn from(_e: AllocError) -> IssueFault {
        IssueFault::Memory
    }
}

/// What is said of an answer.
#[derive(Drop)]
pub enum Answer {
    /// The operation that the challenge with this number asked for took this path.
    Accepted { number: u32, path: Path },
    Refused(AnswerCause),
}

/// Why an answer is refused: the first of these that stands.
#[derive(Clone, Copy)]
pub enum AnswerCause {
    /// No answer frame begins with the bytes before the one at this offset and that byte, or bytes are wanting there.
    Frame(usize),
    /// No known device has the frame's id.
    UnknownDevice,
    /// No challenge to that device has the frame's nonce.
    NoChallenge,
    /// An answer to the challenge with this number was accepted before.
    Spent(u32),
    /// The verdict refuses the blob for the challenge with this number.
    Verdict { number: u32, cause: Cause },
}

/// Known devices, and the challenges that were issued to them.
#[derive(Drop)]
pub struct Owner {
    devices: Devices,
    challenges: Challenges,
}

impl Model for Owner {
    ghost use Rattle.oat_owner.specs.Ledger.{Ledger};
    ghost use Rattle.oat_owner.specs.Kept.{AreKept};

    ghost Value = { Ledger };

    ghost view = { λ owner. record { known = owner.devices; challenges = owner.challenges } };

    ghost invariant = { λ owner. AreKept owner.devices owner.challenges };
}

/// The verdict on a blob under the device's key, for the operation and the nonce of the challenge.
fn judge(
    alloc: Global,
    device: &Known,
    challenge: &Challenge,
    blob: &[u8],
) -> Result<Verdict, AllocError>
    requires { IsOperation device.now.shaped.map challenge.now.op }
    ensures { IfOk result (IsVerdict (subject_of device.now.shaped (challenge_session device.now challenge.now)) blob.now) }
{
    let session = Session {
        key: Listed::from_vec(Vec::from_slice(alloc, device.key.as_slice())?),
        nonce: challenge.nonce,
        op: challenge.op,
        calls: None,
    };
    verify(alloc, &device.shaped, &session, blob)
}

/// What the verdict says of the challenge with this number.
fn judged(number: u32, verdict: Verdict) -> Answer
    ensures { result ≡ judged number verdict }
{
    match verdict {
        Verdict::Accept(path) => Answer::Accepted { number, path },
        Verdict::Refuse(cause) => Answer::Refused(AnswerCause::Verdict { number, cause }),
    }
}

impl Owner {
    /// An owner of these devices, which has issued nothing.
    pub fn new(alloc: Global, known: Vec<Known>) -> Result<Self, OwnerRefusal>
        ensures known { IfOk result (λ owner. owner.known ≡ known.items) }
        ensures nothing_issued { IfOk result (λ owner. owner.challenges ≡ []) }
        ensures distinct { IfOk result (λ owner. repeated_id known.items ≡ None) }
        ensures handed_back { IfErr result (λ refusal. refusal.known ≡ known) }
        ensures fault { IfErr result (λ refusal. IsOwnerFault known.items refusal.fault) }
    {
        let devices = Devices::new(alloc, known)?;
        Ok(Owner {
            devices,
            challenges: Challenges::new(alloc),
        })
    }

    /// Asks a device for an operation, under a nonce that was used for no challenge before.
    pub fn issue(
        &mut self,
        alloc: Global,
        device: u32,
        op: u16,
        nonce: [u8; 16],
    ) -> Result<Issued, IssueFault>
        ensures reply { IssuesOrStarves self.old device op nonce result }
        ensures behind { self.new ≡ behind_issue self.old device op nonce result }
    {
        let Some(known) = self.devices.get(device) else {
            return Err(IssueFault::UnknownDevice);
        };
        let Some(_) = known.shaped.begin_at(op) else {
            return Err(IssueFault::NoOperation);
        };
        if let Some(number) = self.challenges.number_with(&nonce) {
            return Err(IssueFault::UsedNonce(number));
        }
        let number = self.challenges.len();
        if number >= 65536 {
            return Err(IssueFault::Full);
        }
        let frame = challenge_frame(alloc, device, op, &nonce)?;
        let challenge = Challenge {
            device,
            op,
            nonce,
            spent: false,
        };
        self.challenges.push(challenge)?;
        Ok(Issued {
            number: number as u32,
            frame,
        })
    }

    /// What is said of an answer, before it is noted.
    fn reply(&self, alloc: Global, frame: &[u8]) -> Result<Answer, AllocError>
        ensures { IfOk result (IsAnswerReply self.now frame.now) }
    {
        let delivery = match read_answer(frame) {
            Ok(delivery) => delivery,
            Err(fault) => return Ok(Answer::Refused(AnswerCause::Frame(fault.offset))),
        };
        let Some(device) = self.devices.get(delivery.device) else {
            return Ok(Answer::Refused(AnswerCause::UnknownDevice));
        };
        let Some(number) = self.challenges.number_to(delivery.device, &delivery.nonce) else {
            return Ok(Answer::Refused(AnswerCause::NoChallenge));
        };
        let challenge = self.challenges.get(number);
        if challenge.spent {
            return Ok(Answer::Refused(AnswerCause::Spent(number)));
        }
        Ok(judged(number, judge(alloc, device, challenge, delivery.blob)?))
    }

    /// What is said of an answer. The challenge of an accepted one is spent.
    ///
    /// The error is want of memory.
    pub fn answer(&mut self, alloc: Global, frame: &[u8]) -> Result<Answer, AllocError>
        ensures reply { IfOk result (IsAnswerReply self.old frame.now) }
        ensures behind { IfOk result (λ reply. self.new ≡ behind_answer self.old reply) }
        ensures same { OnErr result (self.new ≡ self.old) }
    {
        let reply = self.reply(alloc, frame)?;
        if let Answer::Accepted { number, .. } = &reply {
            self.challenges.spend(*number);
        }
        Ok(reply)
    }

    /// What a call is replied.
    ///
    /// The error is want of memory.
    pub fn call(&mut self, alloc: Global, call: &OwnerCall) -> Result<OwnerReply, AllocError>
        ensures reply { IfOk result (IsReply self.old call.now) }
        ensures behind { IfOk result (λ reply. self.new ≡ behind self.old call.now reply) }
        ensures same { OnErr result (self.new ≡ self.old) }
    {
        match call {
            OwnerCall::Issue { device, op, nonce } => {
                match self.issue(alloc, *device, *op, *nonce) {
                    Err(IssueFault::Memory) => Err(AllocError),
                    reply => Ok(OwnerReply::Issue(reply)),
                }
            }
            OwnerCall::Answer(frame) => {
                Ok(OwnerReply::Answer(self.answer(alloc, frame.as_slice())?))
            }
        }
    }

    /// The image of the device to which a challenge was issued.
    pub fn shaped(&self, number: u32) -> &Shaped
        requires { number < length self.now.challenges }
        ensures { shaped_of self.now number ≡ Some result.now }
    {
        let challenge = self.challenges.get(number);
        let device = self.devices.get(challenge.device).unwrap();
        &device.shaped
    }
}
