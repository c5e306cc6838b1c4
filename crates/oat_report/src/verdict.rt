//! The line of a verdict.

ghost use Rattle.std.specs.Prelude.{◌≡◌, ◌++◌, OnOk, IfOk, codes};
ghost use Rattle.std.specs.Fmt.{decimal};
ghost use Rattle.oat_report.specs.PathLine.{address_digits};
ghost use Rattle.oat_report.specs.VerdictLine.{value_text, replay_text, violation_text, serial_text, cause_text, acceptance_text, verdict_text};

use crate::text::{put_address, put_number};
use oat_verify::{Cause, ReplayCause, Verdict, Violation};
use std::alloc::{AllocError, Global};

pub fn put_value(out: &mut Vec<u8>, value: u64) -> Result<(), AllocError>
    ensures { OnOk result (out.new.items ≡ out.old.items ++ value_text value) }
{
    let digits = format!(in *out.allocator(); "{}", value.cast_signed())?;
    out.extend_from_slice(digits.as_bytes())
}

pub fn put_counted(out: &mut Vec<u8>, keyword: &[u8], count: u32) -> Result<(), AllocError>
    ensures { OnOk result (out.new.items ≡ out.old.items ++ (keyword.now ++ decimal count)) }
{
    out.extend_from_slice(keyword)?;
    put_number(out, count as usize)
}

fn put_bad_target(out: &mut Vec<u8>, target: u64) -> Result<(), AllocError>
    ensures { OnOk result (out.new.items ≡ out.old.items ++ (codes "BadTarget " ++ address_digits target)) }
{
    out.extend_from_slice(b"BadTarget ")?;
    put_address(out, target)
}

fn put_replay_cause(out: &mut Vec<u8>, cause: ReplayCause) -> Result<(), AllocError>
    ensures { OnOk result (out.new.items ≡ out.old.items ++ replay_text cause) }
{
    match cause {
        ReplayCause::BitsEnd => out.extend_from_slice(b"BitsEnd"),
        ReplayCause::TargetsEnd => out.extend_from_slice(b"TargetsEnd"),
        ReplayCause::BadTarget(target) => put_bad_target(out, target),
        ReplayCause::Underflow => out.extend_from_slice(b"Underflow"),
        ReplayCause::EndInside => out.extend_from_slice(b"EndInside"),
        ReplayCause::Nested => out.extend_from_slice(b"Nested"),
        ReplayCause::WrongEnd => out.extend_from_slice(b"WrongEnd"),
        ReplayCause::OffCode => out.extend_from_slice(b"OffCode"),
        ReplayCause::BitsLeft(count) => put_counted(out, b"BitsLeft ", count),
        ReplayCause::TargetsLeft(count) => put_counted(out, b"TargetsLeft ", count),
        ReplayCause::PathLimit => out.extend_from_slice(b"PathLimit"),
    }
}

fn put_replay(out: &mut Vec<u8>, cause: ReplayCause, turn: u32) -> Result<(), AllocError>
    ensures { OnOk result (out.new.items ≡ out.old.items ++ cause_text (Cause.Replay cause turn)) }
{
    put_counted(out, b"replay ", turn)?;
    out.extend_from_slice(b" ")?;
    put_replay_cause(out, cause)
}

fn put_violation(out: &mut Vec<u8>, violation: Violation) -> Result<(), AllocError>
    ensures { OnOk result (out.new.items ≡ out.old.items ++ violation_text violation) }
{
    put_counted(out, b"critical ", violation.cell)?;
    out.extend_from_slice(b" ")?;
    put_value(out, violation.expected)?;
    out.extend_from_slice(b" ")?;
    put_value(out, violation.found)
}

fn put_offset(out: &mut Vec<u8>, offset: usize) -> Result<(), AllocError>
    ensures { OnOk result (out.new.items ≡ out.old.items ++ cause_text (Cause.Form offset)) }
{
    out.extend_from_slice(b"form ")?;
    put_number(out, offset)
}

fn put_serial(out: &mut Vec<u8>, serial: Option<u32>) -> Result<(), AllocError>
    ensures { OnOk result (out.new.items ≡ out.old.items ++ (codes "serial " ++ serial_text serial)) }
{
    match serial {
        Some(serial) => put_counted(out, b"serial ", serial),
        None => out.extend_from_slice(b"serial -"),
    }
}

/// Adds the text of a cause.
pub fn put_cause(out: &mut Vec<u8>, cause: &Cause) -> Result<(), AllocError>
    ensures { OnOk result (out.new.items ≡ out.old.items ++ cause_text cause.now) }
{
    match *cause {
        Cause::Form(offset) => put_offset(out, offset),
        Cause::Mac => out.extend_from_slice(b"mac"),
        Cause::Nonce => out.extend_from_slice(b"nonce"),
        Cause::Serial(serial) => put_serial(out, serial),
        Cause::Operation => out.extend_from_slice(b"operation"),
        Cause::Image => out.extend_from_slice(b"image"),
        Cause::Replay { cause, turn } => put_replay(out, cause, turn),
        Cause::Hash => out.extend_from_slice(b"hash"),
        Cause::Critical(violation) => put_violation(out, violation),
    }
}

fn refusal_line(alloc: Global, cause: &Cause) -> Result<Vec<u8>, AllocError>
    ensures { IfOk result (λ line. line.items ≡ codes "refuse " ++ cause_text cause.now) }
{
    let mut line = Vec::from_slice(alloc, b"refuse ")?;
    put_cause(&mut line, cause)?;
    Ok(line)
}

fn acceptance_line(alloc: Global, serial: Option<u32>) -> Result<Vec<u8>, AllocError>
    ensures { IfOk result (λ line. line.items ≡ acceptance_text serial) }
{
    let mut line = Vec::from_slice(alloc, b"accept")?;
    if let Some(serial) = serial {
        put_counted(&mut line, b" ", serial)?;
    }
    Ok(line)
}

/// The line of a verdict on a blob with such a serial number, without its line end (docs/FORMATS.md,
/// "Commands, texts and statuses").
pub fn verdict_line(
    alloc: Global,
    serial: Option<u32>,
    verdict: &Verdict,
) -> Result<Vec<u8>, AllocError>
    ensures { IfOk result (λ line. line.items ≡ verdict_text serial verdict.now) }
{
    match verdict {
        Verdict::Accept(_) => acceptance_line(alloc, serial),
        Verdict::Refuse(cause) => refusal_line(alloc, cause),
    }
}
