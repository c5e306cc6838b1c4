//! The parts of a blob, each read off the front of bytes.

ghost use Rattle.std.specs.Prelude.{◌≡◌, ◌+◌, ◌/◌, ◌*◌, ◌<◌, ◌^◌, length, MatchResult, IfOk};
ghost use Rattle.std.specs.Int.{w16, w32, w64, to_be_bytes};
ghost use Rattle.oat_bits.specs.Packed.{packed};
ghost use Rattle.oat_blob.specs.Body.{AreBytes, IsViolation};
ghost use Rattle.oat_blob.specs.Layout.{violation_part, bits_part, targets_part};
ghost use Rattle.oat_blob.specs.Layout.{magic, version_part, serial_part};
ghost use Rattle.oat_blob.specs.Parts.{IsCut, IsFront, Breaks, plain_part, IsMagic, IsBelow, IsVersion, IsSerial, violation_fields, IfViolation, head_part, IsHead, AreBits, AreTargets, addresses_part, AreFewBits, AreFewTargets};
ghost use Rattle.oat_blob.specs.Shown.{HasAddresses, HasBits, HasPackedBits, HasTargets};

use crate::body::{BodyHead, Violation};
use oat_bits::is_filled;

/// The letters OATB.
pub const MAGIC: [u8; 4] = [0x4F, 0x41, 0x54, 0x42];

/// Where bytes stop being a part: so many are left from the first wrong one on.
#[derive(Drop)]
pub struct Stop {
    pub left: usize,
}

/// Records as they stand in the bytes.
#[derive(Drop)]
pub struct Counted<'a> {
    pub count: u32,
    pub bytes: &'a [u8],
}

fn split(bytes: &[u8], size: usize) -> Result<(&[u8], &[u8]), Stop>
    ensures { MatchResult result (λ cut. IsCut size bytes.now cut.0.now cut.1.now) (λ stop. (length bytes.now < size) × (stop.left ≡ 0)) }
{
    match bytes.split_at_checked(size) {
        Some(cut) => Ok(cut),
        None => Err(Stop { left: 0 }),
    }
}

pub fn array<const N: usize>(bytes: &[u8]) -> Result<([u8; N], &[u8]), Stop>
    ensures { MatchResult result (λ read. IsFront plain_part (AreBytes N) bytes.now read.0 read.1.now) (λ stop. Breaks plain_part (AreBytes N) bytes.now stop.left) }
{
    match bytes.split_first_chunk::<N>() {
        Some((field, rest)) => Ok((*field, rest)),
        None => Err(Stop { left: 0 }),
    }
}

pub fn number_16(bytes: &[u8]) -> Result<(u16, &[u8]), Stop>
    ensures { MatchResult result (λ read. IsFront (to_be_bytes w16) (IsBelow 16) bytes.now read.0 read.1.now) (λ stop. Breaks (to_be_bytes w16) (IsBelow 16) bytes.now stop.left) }
{
    let (field, rest) = array(bytes)?;
    Ok((u16::from_be_bytes(field), rest))
}

pub fn number_32(bytes: &[u8]) -> Result<(u32, &[u8]), Stop>
    ensures { MatchResult result (λ read. IsFront (to_be_bytes w32) (IsBelow 32) bytes.now read.0 read.1.now) (λ stop. Breaks (to_be_bytes w32) (IsBelow 32) bytes.now stop.left) }
{
    let (field, rest) = array(bytes)?;
    Ok((u32::from_be_bytes(field), rest))
}

pub fn number_64(bytes: &[u8]) -> Result<(u64, &[u8]), Stop>
    ensures { MatchResult result (λ read. IsFront (to_be_bytes w64) (IsBelow 64) bytes.now read.0 read.1.now) (λ stop. Breaks (to_be_bytes w64) (IsBelow 64) bytes.now stop.left) }
{
    let (field, rest) = array(bytes)?;
    Ok((u64::from_be_bytes(field), rest))
}

fn magic(bytes: &[u8]) -> Result<&[u8], Stop>
    ensures { MatchResult result (λ rest. IsFront plain_part IsMagic bytes.now magic rest.now) (λ stop. Breaks plain_part IsMagic bytes.now stop.left) }
{
    let mut rest = bytes;
    for letter in MAGIC {
        match rest.split_first() {
            Some((byte, behind)) if *byte == letter => rest = behind,
            _ => return Err(Stop { left: rest.len() }),
        }
    }
    Ok(rest)
}

/// Whether the version is that with a serial number.
fn version(bytes: &[u8]) -> Result<(bool, &[u8]), Stop>
    ensures { MatchResult result (λ read. IsFront version_part IsVersion bytes.now read.0 read.1.now) (λ stop. Breaks version_part IsVersion bytes.now stop.left) }
{
    match bytes.split_first() {
        Some((version, rest)) if *version == 1 => Ok((false, rest)),
        Some((version, rest)) if *version == 2 => Ok((true, rest)),
        _ => Err(Stop { left: bytes.len() }),
    }
}

fn serial(bytes: &[u8], numbered: bool) -> Result<(Option<u32>, &[u8]), Stop>
    ensures { MatchResult result (λ read. IsFront serial_part (IsSerial numbered) bytes.now read.0 read.1.now) (λ stop. Breaks serial_part (IsSerial numbered) bytes.now stop.left) }
{
    if !numbered {
        return Ok((None, bytes));
    }
    let (serial, rest) = number_32(bytes)?;
    Ok((Some(serial), rest))
}

fn violation_fields(bytes: &[u8]) -> Result<(Violation, &[u8]), Stop>
    ensures { MatchResult result (λ read. IsFront violation_fields IsViolation bytes.now read.0 read.1.now) (λ stop. Breaks violation_fields IsViolation bytes.now stop.left) }
{
    let (cell, rest) = number_32(bytes)?;
    let (expected, rest) = number_64(rest)?;
    let (found, rest) = number_64(rest)?;
    Ok((
        Violation {
            cell,
            expected,
            found,
        },
        rest,
    ))
}

fn violation(bytes: &[u8]) -> Result<(Option<Violation>, &[u8]), Stop>
    ensures { MatchResult result (λ read. IsFront violation_part IfViolation bytes.now read.0 read.1.now) (λ stop. Breaks violation_part IfViolation bytes.now stop.left) }
{
    let Some((flag, rest)) = bytes.split_first() else {
        return Err(Stop { left: 0 });
    };
    if *flag == 0 {
        return Ok((None, rest));
    }
    if *flag != 1 {
        return Err(Stop { left: bytes.len() });
    }
    let (violation, rest) = violation_fields(rest)?;
    Ok((Some(violation), rest))
}

pub fn head(bytes: &[u8]) -> Result<(BodyHead, &[u8]), Stop>
    ensures { MatchResult result (λ read. IsFront head_part IsHead bytes.now read.0 read.1.now) (λ stop. Breaks head_part IsHead bytes.now stop.left) }
{
    let rest = magic(bytes)?;
    let (numbered, rest) = version(rest)?;
    let (op, rest) = number_16(rest)?;
    let (serial, rest) = serial(rest, numbered)?;
    let (nonce, rest) = array(rest)?;
    let (digest, rest) = array(rest)?;
    let (hash, rest) = array(rest)?;
    let (violation, rest) = violation(rest)?;
    let head = BodyHead {
        op,
        nonce,
        digest,
        hash,
        violation,
        serial,
    };
    Ok((head, rest))
}

/// The bytes of packed bits, the last filled with zeros.
fn packed_bits(bytes: &[u8], count: u32) -> Result<(&[u8], &[u8]), Stop>
    ensures read { MatchResult result (λ read. HasPackedBits bytes.now count read.0.now read.1.now) (λ stop. Breaks packed (AreBits count) bytes.now stop.left) }
    ensures size { IfOk result (λ read. length read.0.now ≡ (count + 7) / 8) }
{
    let count = count as usize;
    let (bits, rest) = split(bytes, count.div_ceil(8))?;
    if !is_filled(bits, count) {
        return Err(Stop {
            left: rest.len() + 1,
        });
    }
    Ok((bits, rest))
}

pub fn bits(bytes: &[u8]) -> Result<(Counted<'_>, &[u8]), Stop>
    ensures read { MatchResult result (λ read. HasBits bytes.now read.0.count read.0.bytes.now read.1.now) (λ stop. Breaks bits_part AreFewBits bytes.now stop.left) }
    ensures size { IfOk result (λ read. length read.0.bytes.now ≡ (read.0.count + 7) / 8) }
{
    let (count, rest) = number_32(bytes)?;
    let (bytes, rest) = packed_bits(rest, count)?;
    Ok((Counted { count, bytes }, rest))
}

fn addresses(bytes: &[u8], count: u32) -> Result<(&[u8], &[u8]), Stop>
    ensures read { MatchResult result (λ read. HasAddresses bytes.now count read.0.now read.1.now) (λ stop. Breaks addresses_part (AreTargets count) bytes.now stop.left) }
    ensures size { IfOk result (λ read. length read.0.now ≡ count * 8) }
{
    split(bytes, count as usize * 8)
}

pub fn targets(bytes: &[u8]) -> Result<(Counted<'_>, &[u8]), Stop>
    ensures read { MatchResult result (λ read. HasTargets bytes.now read.0.count read.0.bytes.now read.1.now) (λ stop. Breaks targets_part AreFewTargets bytes.now stop.left) }
    ensures size { IfOk result (λ read. length read.0.bytes.now ≡ read.0.count * 8) }
{
    let (count, rest) = number_32(bytes)?;
    let (bytes, rest) = addresses(rest, count)?;
    Ok((Counted { count, bytes }, rest))
}
