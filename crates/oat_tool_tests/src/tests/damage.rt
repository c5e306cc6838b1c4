//! Damage to the blob of a run: each of its bytes changed, or where it is cut off, and a byte that follows it.

use super::texts::{BLOB_CALLS, CASE};
use super::{CALLS_PATH, changed_file, expect_among, file};
use oat_image::worked::CALLS;
use std::alloc::{AllocError, Global};
use std::process::Abort;
use std::test::Fail;

/// What is done to a blob at an offset.
#[derive(Clone, Copy)]
enum Change {
    /// It ends there.
    Cut,
    /// The lowest bit of the byte there is flipped.
    Flip,
    /// The byte there becomes another one.
    Set(u8),
    /// A byte is put behind it, whatever the offset.
    Add,
}

/// The cause for which a blob is refused.
#[derive(Clone, Copy)]
enum Said {
    /// Form, at the offset of the change.
    There,
    /// Form, at another offset.
    Form(usize),
    Mac,
}

/// From which offset to which one a blob is changed, one byte a time; what is done there; and what is said each time.
type Damage = (usize, usize, Change, Said);

/// Damage to the blob of a session with one window: 137 bytes, of which the first number counts its one bit and the second one its one target.
const ONE_WINDOW: [Damage; 15] = [
    (0, 136, Change::Cut, Said::There),
    (137, 137, Change::Add, Said::There),
    (0, 4, Change::Flip, Said::There),
    (4, 4, Change::Set(2), Said::Form(137)),
    (5, 86, Change::Flip, Said::Mac),
    (87, 87, Change::Flip, Said::Form(137)),
    (87, 87, Change::Set(2), Said::There),
    (88, 89, Change::Flip, Said::Form(137)),
    (90, 90, Change::Flip, Said::Form(124)),
    (91, 91, Change::Flip, Said::Form(137)),
    (92, 92, Change::Set(0x81), Said::There),
    (92, 92, Change::Set(0), Said::Mac),
    (93, 95, Change::Flip, Said::Form(137)),
    (96, 96, Change::Set(0), Said::Form(129)),
    (97, 136, Change::Flip, Said::Mac),
];

/// Damage to the blob of the same run in a session that numbers its windows: 141 bytes, of which those from 7 to 10 are the serial number.
const NUMBERED_WINDOW: [Damage; 17] = [
    (0, 140, Change::Cut, Said::There),
    (141, 141, Change::Add, Said::There),
    (0, 4, Change::Flip, Said::There),
    (4, 4, Change::Set(1), Said::Form(87)),
    (5, 6, Change::Flip, Said::Mac),
    (7, 10, Change::Flip, Said::Mac),
    (11, 90, Change::Flip, Said::Mac),
    (91, 91, Change::Flip, Said::Form(141)),
    (91, 91, Change::Set(2), Said::There),
    (92, 93, Change::Flip, Said::Form(141)),
    (94, 94, Change::Flip, Said::Form(128)),
    (95, 95, Change::Flip, Said::Form(141)),
    (96, 96, Change::Set(0x81), Said::There),
    (96, 96, Change::Set(0), Said::Mac),
    (97, 99, Change::Flip, Said::Form(141)),
    (100, 100, Change::Set(0), Said::Form(133)),
    (101, 140, Change::Flip, Said::Mac),
];

/// The line of the blob of the numbered window.
const BLOB_NUMBERED: &str =
    "blob 4f41544202000200000000000102030405060708090a0b0c0d0e0fdf36513e3ff2cfa9ec497b8e82e790f094110afe98de18608448166c0b519556bd4b2ce287b6672fc7a0138281473ed5486f21eb696bd76b3a8800d563965b5600000000018000000001000000000001009ccc18724597cfe35fb0c9b7660388bda6716afca1c7d52e9c914a5fc8768014a1\n";

/// What stands in the two cases in place of the operation and the steps of the case of one jump.
const ONE: &str = "operation 2\nsteps 100000\n";

const NUMBERED: &str = "operation 2\nsteps 100000\ncalls 1\n";

fn damaged(alloc: Global, blob: &[u8], at: usize, change: Change) -> Result<Vec<u8>, AllocError> {
    let mut bytes = Vec::from_slice(alloc, blob)?;
    match change {
        Change::Cut => bytes.truncate(at),
        Change::Flip => {
            if let Some(byte) = bytes.get_mut(at) {
                *byte ^= 1;
            }
        }
        Change::Set(value) => {
            if let Some(byte) = bytes.get_mut(at) {
                *byte = value;
            }
        }
        Change::Add => bytes.push(0)?,
    }
    Ok(bytes)
}

fn refusal(alloc: Global, said: Said, at: usize) -> Result<String, AllocError> {
    match said {
        Said::There => format!(in alloc; "refuse form {at}\n"),
        Said::Form(offset) => format!(in alloc; "refuse form {offset}\n"),
        Said::Mac => format!(in alloc; "refuse mac\n"),
    }
}

/// Verifies a blob of the image of calls.
fn expect_verdict(
    rt: &impl Abort,
    alloc: Global,
    case: &str,
    (name, blob): (&str, &[u8]),
    want: (u8, &str),
) -> Result<(), AllocError> {
    let old = "operation 1\nsteps 100000\n";
    let digits = hex::encode(alloc, blob)?;
    let mut files = Vec::new(alloc);
    files.push(file(alloc, "B", CALLS.as_bytes())?)?;
    files.push(changed_file(alloc, "KB", CASE, (old, case))?)?;
    files.push(file(alloc, name, digits.as_bytes())?)?;
    let line = format!(in alloc; "verify B KB {name}")?;
    expect_among(rt, alloc, line.as_str(), files, (want.0, want.1, ""))
}

/// The blob is accepted as it is, with this word and the path, and refused with each damage.
fn expect_damage(
    rt: &impl Abort,
    alloc: Global,
    (case, line, accept): (&str, &str, &str),
    table: &[Damage],
) -> Result<(), Fail> {
    let blob = hex::decode(alloc, line.trim_start_matches("blob ").trim_end())?;
    let accepted = CALLS_PATH.replacen(alloc, "accept", accept, 1)?;
    expect_verdict(rt, alloc, case, ("WHOLE", &blob), (0, accepted.as_str()))?;
    for (first, last, change, said) in table {
        for at in *first..=*last {
            let name = format!(in alloc; "AT_{at}")?;
            let bytes = damaged(alloc, &blob, at, *change)?;
            let text = refusal(alloc, *said, at)?;
            expect_verdict(rt, alloc, case, (name.as_str(), &bytes), (1, text.as_str()))?;
        }
    }
    Ok(())
}

#[test]
fn damage_is_refused(rt: HostRuntime) -> Result<(), Fail> {
    let whole = (ONE, BLOB_CALLS, "accept");
    expect_damage(&rt, rt.alloc(), whole, &ONE_WINDOW)
}

#[test]
fn damage_to_numbered_windows_is_refused(rt: HostRuntime) -> Result<(), Fail> {
    let whole = (NUMBERED, BLOB_NUMBERED, "accept 0");
    expect_damage(&rt, rt.alloc(), whole, &NUMBERED_WINDOW)
}
