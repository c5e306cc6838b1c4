ghost use Rattle.std.specs.Prelude.{◌≡◌, ◌<◌, ◌^◌, ◌++◌, ◌∷◌, [], Option, length, IfOk, IfSome, OnOk, is_some};
ghost use Rattle.std.specs.Int.{w64, to_be_bytes};
ghost use Rattle.std.specs.List.{All, flat_map};
ghost use Rattle.oat_blob.specs.Body.{IsViolation};
ghost use Rattle.oat_blob.specs.Layout.{IsBlobOf, bits_part, serial_part, targets_part, version_part, violation_part};
ghost use Rattle.oat_blob.specs.Parts.{IfViolation, IsBelow, IsHead, head_part, violation_fields};

use crate::body::{BodyHead, Violation};
use crate::reader::MAGIC;
use oat_bits::PackedBits;
use oat_hmac::Mac;
use std::alloc::{AllocError, Global};

fn put_bytes(out: &mut Vec<u8>, bytes: &[u8]) -> Result<(), AllocError>
    ensures put { OnOk result (out.new.items ≡ out.old.items ++ bytes.now) }
    ensures fits { All (λ byte. byte < 256) bytes.now }
{
    out.extend_from_slice(bytes)
}

fn put_head(out: &mut Vec<u8>, head: &BodyHead) -> Result<(), AllocError>
    ensures put { OnOk result (out.new.items ≡ out.old.items ++ head_part head.now) }
    ensures fits { OnOk result (IsHead head.now) }
{
    put_bytes(out, &MAGIC)?;
    put_bytes(out, &[version(head.serial)])?;
    put_bytes(out, &head.op.to_be_bytes())?;
    put_serial(out, head.serial)?;
    put_bytes(out, &head.nonce)?;
    put_bytes(out, &head.digest)?;
    put_bytes(out, &head.hash)?;
    put_violation(out, &head.violation)
}

/// The version that the layout has with such a serial number.
fn version(serial: Option<u32>) -> u8
    ensures { result ∷ [] ≡ version_part (is_some serial) }
{
    if serial.is_some() { 2 } else { 1 }
}

fn put_serial(out: &mut Vec<u8>, serial: Option<u32>) -> Result<(), AllocError>
    ensures put { OnOk result (out.new.items ≡ out.old.items ++ serial_part serial) }
    ensures fits { IfSome serial (IsBelow 32) }
{
    match serial {
        Some(serial) => put_bytes(out, &serial.to_be_bytes()),
        None => Ok(()),
    }
}

fn put_violation(out: &mut Vec<u8>, violation: &Option<Violation>) -> Result<(), AllocError>
    ensures put { OnOk result (out.new.items ≡ out.old.items ++ violation_part violation.now) }
    ensures fits { OnOk result (IfViolation violation.now) }
{
    match violation {
        Some(violation) => {
            out.extend_from_slice(&[1])?;
            put_violation_fields(out, violation)
        }
        None => out.extend_from_slice(&[0]),
    }
}

fn put_violation_fields(out: &mut Vec<u8>, violation: &Violation) -> Result<(), AllocError>
    ensures put { OnOk result (out.new.items ≡ out.old.items ++ violation_fields violation.now) }
    ensures fits { OnOk result (IsViolation violation.now) }
{
    out.extend_from_slice(&violation.cell.to_be_bytes())?;
    out.extend_from_slice(&violation.expected.to_be_bytes())?;
    out.extend_from_slice(&violation.found.to_be_bytes())
}

fn put_bits(out: &mut Vec<u8>, bits: &PackedBits) -> Result<(), AllocError>
    requires { length bits.now.bits < 2 ^ 32 }
    ensures { OnOk result (out.new.items ≡ out.old.items ++ bits_part bits.now.bits) }
{
    out.extend_from_slice(&(bits.len() as u32).to_be_bytes())?;
    out.extend_from_slice(bits.bytes())
}

fn put_targets(out: &mut Vec<u8>, targets: &[u64]) -> Result<(), AllocError>
    requires { length targets.now < 2 ^ 32 }
    ensures { OnOk result (out.new.items ≡ out.old.items ++ targets_part targets.now) }
{
    out.extend_from_slice(&(targets.len() as u32).to_be_bytes())?;
    for target in targets {
        out.extend_from_slice(&target.to_be_bytes())?;
    }
    Ok(())
}

/// The blob of the body, sealed under the key.
pub fn encode(
    alloc: Global,
    head: &BodyHead,
    bits: &PackedBits,
    targets: &[u64],
    key: &[u8],
) -> Result<Vec<u8>, AllocError>
    requires bits { length bits.now.bits < 2 ^ 32 }
    requires targets { length targets.now < 2 ^ 32 }
    ensures { IfOk result (λ bytes. IsBlobOf (record { head = head.now; bits = bits.now.bits; targets = targets.now }) key.now bytes.items) }
{
    let mut out = Vec::new(alloc);
    put_head(&mut out, head)?;
    put_bits(&mut out, bits)?;
    put_targets(&mut out, targets)?;
    let mut mac = Mac::new(key);
    mac.update(&out);
    put_bytes(&mut out, &mac.finish())?;
    Ok(out)
}
