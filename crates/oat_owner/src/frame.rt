//! The frames in which challenges and answers travel.

ghost use Rattle.std.specs.Prelude.{◌≡◌, ◌≢◌, ◌<◌, ◌≤◌, ◌^◌, ◌++◌, length, take, slice_get, OnOk, IfOk, IfErr, IsOkAnd, MatchOption};
ghost use Rattle.oat_owner.specs.Frames.{Delivery, answer_front, challenge_frame, answer_frame, IsAnswerFrame, IsFrameOffset};
ghost use Rattle.oat_owner.specs.Fields.{AreFields};

use oat_case::Bytes;
use oat_list::Listed;
use std::alloc::{AllocError, Global};

/// The letters OATC, and the version.
const CHALLENGE_FRONT: [u8; 5] = [0x4F, 0x41, 0x54, 0x43, 1];

/// The letters OATA, and the version.
const ANSWER_FRONT: [u8; 5] = [0x4F, 0x41, 0x54, 0x41, 1];

/// What an answer brings, over the bytes of its frame.
#[derive(Drop)]
pub struct AnswerRef<'a> {
    pub device: u32,
    pub nonce: [u8; 16],
    /// The bytes that are to be a blob.
    pub blob: &'a [u8],
}

/// Bytes that are no answer frame.
#[derive(Clone, Copy)]
pub struct FrameFault {
    /// The place of the first byte that no answer frame with the bytes before it can have, or the
    /// length where bytes are wanting.
    pub offset: usize,
}

fn put_bytes(out: &mut Vec<u8>, bytes: &[u8]) -> Result<(), AllocError>
    ensures { OnOk result (out.new.items ≡ out.old.items ++ bytes.now) }
{
    out.extend_from_slice(bytes)
}

/// The frame of 27 bytes that asks a device for an operation, under a nonce.
pub fn challenge_frame(
    alloc: Global,
    device: u32,
    op: u16,
    nonce: &[u8; 16],
) -> Result<Bytes, AllocError>
    ensures { IfOk result (λ frame. frame ≡ challenge_frame device op nonce.now) }
{
    let mut out = Vec::new(alloc);
    put_bytes(&mut out, &CHALLENGE_FRONT)?;
    put_bytes(&mut out, &device.to_be_bytes())?;
    put_bytes(&mut out, &op.to_be_bytes())?;
    put_bytes(&mut out, nonce)?;
    Ok(Listed::from_vec(out))
}

/// The frame in which a device sends a blob.
pub fn answer_frame(
    alloc: Global,
    device: u32,
    nonce: &[u8; 16],
    blob: &[u8],
) -> Result<Bytes, AllocError>
    requires { length blob.now < 2 ^ 32 }
    ensures { IfOk result (λ frame. frame ≡ answer_frame (record { device = device; nonce = nonce.now; blob = blob.now })) }
{
    let mut out = Vec::new(alloc);
    put_bytes(&mut out, &ANSWER_FRONT)?;
    put_bytes(&mut out, &device.to_be_bytes())?;
    put_bytes(&mut out, nonce)?;
    put_bytes(&mut out, &(blob.len() as u32).to_be_bytes())?;
    put_bytes(&mut out, blob)?;
    Ok(Listed::from_vec(out))
}

/// How many of the first bytes are those with which each answer frame begins.
fn front_length(bytes: &[u8]) -> usize
    ensures at_most { result ≤ 5 }
    ensures same { take result bytes.now ≡ take result answer_front }
    ensures within { result ≤ length bytes.now }
    ensures stops { result < 5 → slice_get bytes.now result ≢ slice_get answer_front result }
{
    for i in 0..5 {
        if i >= bytes.len() || bytes[i] != ANSWER_FRONT[i] {
            return i;
        }
    }
    5
}

/// What stands between the front of an answer frame and its blob, and the bytes behind.
#[derive(Drop)]
struct Fields<'a> {
    device: u32,
    nonce: [u8; 16],
    /// How many bytes of the blob are stated.
    stated: u32,
    rest: &'a [u8],
}

/// None where bytes are wanting.
fn fields_of(bytes: &[u8]) -> Option<Fields<'_>>
    ensures { MatchOption result (length bytes.now < 24) (λ f. AreFields bytes.now f.device f.nonce f.stated f.rest.now) }
{
    let (device, rest) = bytes.split_first_chunk::<4>()?;
    let (nonce, rest) = rest.split_first_chunk::<16>()?;
    let (stated, rest) = rest.split_first_chunk::<4>()?;
    Some(Fields {
        device: u32::from_be_bytes(*device),
        nonce: *nonce,
        stated: u32::from_be_bytes(*stated),
        rest,
    })
}

/// The answer whose frame the bytes are.
pub fn read_answer(bytes: &[u8]) -> Result<AnswerRef<'_>, FrameFault>
    ensures found { IfOk result (λ d. IsAnswerFrame bytes.now (record { device = d.device; nonce = d.nonce; blob = d.blob.now })) }
    ensures only { (d : Delivery) → IsAnswerFrame bytes.now d → IsOkAnd result (λ e. record { device = e.device; nonce = e.nonce; blob = e.blob.now } ≡ d) }
    ensures fault { IfErr result (λ fault. IsFrameOffset bytes.now fault.offset) }
{
    let front = front_length(bytes);
    if front < 5 {
        return Err(FrameFault { offset: front });
    }
    let (_, behind) = bytes.split_at(5);
    let Some(fields) = fields_of(behind) else {
        return Err(FrameFault {
            offset: bytes.len(),
        });
    };
    let stated = fields.stated as usize;
    if fields.rest.len() < stated {
        return Err(FrameFault {
            offset: bytes.len(),
        });
    }
    if fields.rest.len() > stated {
        return Err(FrameFault {
            offset: 29 + stated,
        });
    }
    Ok(AnswerRef {
        device: fields.device,
        nonce: fields.nonce,
        blob: fields.rest,
    })
}
