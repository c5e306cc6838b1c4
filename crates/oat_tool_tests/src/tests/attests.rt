//! Calls of `attest`.

use super::programs::{IDLE, RAN, program_files, put_by};
use super::texts::CASE;
use super::{changed_file, expect_among, file};
use oat_case::read_case;
use oat_feed::{Feed, FeedVerdict};
use oat_image::read_image;
use oat_shape::check_shape;
use oat_world::MemoryFile;
use std::alloc::{AllocError, Global};
use std::process::Abort;
use std::test::Fail;

/// A main function that calls an operation twice, which answers a critical value.
const CHECKS: &str =
    "critical limit 10\noperation 1 check\nlocal v i64\nblock b0\nload v limit\nret v\nend\nmain\nlocal s i64\nblock b0\ncall s check\nout s\ncall s check\nout s\nhalt\nend\n";

/// An operation that calls no one and has five locals: it takes a critical value, and elements of a critical array and of a plain one.
const LEAF: &str =
    "critical limit 10\ncriticals table 4\narray plain 4\noperation 1 work n:i64\nlocal i i64\nlocal a i64\nlocal b i64\nlocal c i64\nblock b0\nconst i 2\nconst a 7\nstorex table i a\nstorex plain i n\nload b limit\nloadx c table i\nadd b b c\nloadx c plain i\nadd b b c\nout b\nret b\nend\nmain\nlocal n i64\nlocal s i64\nblock b0\nconst n 25\ncall s work n\nout s\nhalt\nend\n";

/// Cases of several windows, or with a write into the frame of the operation that calls no one, behind its return address: what follows the
/// bound on steps.
const SESSIONS: [(&str, &str); 6] = [
    (
        "FRAME",
        "write 40 7fffffb8 ffffffffffffffffffffffffffffffffffffffffffffffffffffffffffffffffffffffffffffffff\n",
    ),
    ("K2", "calls 2\n"),
    ("K3", "calls 3\n"),
    ("EARLY", "calls 2\nwrite 0 40000000 2000000000000000\n"),
    ("BETWEEN", "calls 2\nwrite 24 40000000 2000000000000000\n"),
    (
        "RESTORED",
        "calls 2\nwrite 0 40000000 2000000000000000\nwrite 24 40000000 0a00000000000000\n",
    ),
];

/// Sessions of several windows: an operation with nothing in it; another value in the critical cell from the start on, from
/// between the two windows on, and in the first window alone. Then an operation whose locals stand in registers: nobody writes, and a write
/// into its frame. The program, the case, the status, the run lines, and what follows the line of each window's blob.
const ATTESTED: [(&str, &str, u8, &str, &[&str]); 9] = [
    (
        "I2",
        "K2",
        0,
        "ended halted\n",
        &["accept 0\nend 1\n", "accept 1\nend 1\n"],
    ),
    (
        "I2",
        "K3",
        7,
        "ended halted\n",
        &["accept 0\nend 1\n", "accept 1\nend 1\n"],
    ),
    (
        "CHECKS",
        "K2",
        0,
        "out 10\nout 10\nended halted\n",
        &["accept 0\nend 1\n", "accept 1\nend 1\n"],
    ),
    (
        "CHECKS",
        "EARLY",
        1,
        "out 32\nout 32\nended halted\n",
        &["refuse critical 0 10 32\n", "refuse critical 0 10 32\n"],
    ),
    (
        "CHECKS",
        "BETWEEN",
        1,
        "out 10\nout 32\nended halted\n",
        &["accept 0\nend 1\n", "refuse critical 0 10 32\n"],
    ),
    (
        "CHECKS",
        "RESTORED",
        1,
        "out 32\nout 10\nended halted\n",
        &["refuse critical 0 10 32\n", "accept 1\nend 1\n"],
    ),
    (
        "CHECKS",
        "KA",
        0,
        "out 10\nout 10\nended halted\n",
        &["accept\nend 1\n"],
    ),
    (
        "LEAF",
        "KA",
        0,
        "out 42\nout 42\nended halted\n",
        &["accept\nend 1\n"],
    ),
    (
        "LEAF",
        "FRAME",
        0,
        "out 42\nout 42\nended halted\n",
        &["accept\nend 1\n"],
    ),
];

/// The files of programs, and of sessions with several windows.
pub fn session_files(alloc: Global) -> Result<Vec<MemoryFile>, AllocError> {
    let mut files = program_files(alloc)?;
    files.push(file(alloc, "CHECKS", CHECKS.as_bytes())?)?;
    files.push(file(alloc, "LEAF", LEAF.as_bytes())?)?;
    let calls = ("call s idle\n", "call s idle\ncall s idle\n");
    files.push(changed_file(alloc, "I2", IDLE, calls)?)?;
    for (name, lines) in SESSIONS {
        let behind = format!(in alloc; "steps 100000\n{lines}")?;
        files.push(changed_file(alloc, name, CASE, ("steps 100000\n", behind.as_str()))?)?;
    }
    Ok(files)
}

/// What the device puts of a case on the image that is built of a program.
fn measured(alloc: Global, program: &str, case: &str) -> Result<Vec<u8>, AllocError> {
    let build = format!(in alloc; "build {program}")?;
    let image = put_by(alloc, build.as_str(), session_files(alloc)?)?;
    let mut files = session_files(alloc)?;
    files.push(file(alloc, "IMAGE", image.as_slice())?)?;
    let device = format!(in alloc; "device IMAGE {case}")?;
    put_by(alloc, device.as_str(), files)
}

/// Run lines, and behind the line of each blob what is said of it.
fn said_of(alloc: Global, lines: &str, blobs: &str, parts: &[&str]) -> Result<String, AllocError> {
    let mut text = String::from_str(alloc, lines)?;
    for (blob, part) in blobs.split_inclusive('\n').zip(parts) {
        text.push_str(blob)?;
        text.push_str(part)?;
    }
    Ok(text)
}

/// Attests a program, and asserts that its blobs are those that the device puts of the built image, and what is said of each.
fn expect_attested(
    rt: &impl Abort,
    alloc: Global,
    names: (&str, &str),
    status: u8,
    lines: &str,
    parts: &[&str],
) -> Result<(), AllocError> {
    let (program, case) = names;
    let text = measured(alloc, program, case)?;
    let blobs = text
        .as_slice()
        .strip_prefix(lines.as_bytes())
        .unwrap_or(&[]);
    let blobs = str::from_utf8(blobs).unwrap_or("");
    assert_eq!(rt; blobs.lines().count(), parts.len(), "{program} {case}");
    let want = said_of(alloc, lines, blobs, parts)?;
    let line = format!(in alloc; "attest {program} {case}")?;
    let said = if status == 7 { "no blob\n" } else { "" };
    let files = session_files(alloc)?;
    expect_among(
        rt,
        alloc,
        line.as_str(),
        files,
        (status, want.as_str(), said),
    )
}

#[test]
fn sessions_of_windows_are_attested(rt: HostRuntime) -> Result<(), Fail> {
    for (program, case, status, lines, parts) in ATTESTED {
        expect_attested(&rt, rt.alloc(), (program, case), status, lines, parts)?;
    }
    Ok(())
}

/// A run of a program is attested with the outputs and the path that the program's own run has.
#[test]
fn runs_of_programs_are_attested(rt: HostRuntime) -> Result<(), Fail> {
    let alloc = rt.alloc();
    for (program, case, lines, path) in RAN {
        let part = format!(in alloc; "accept\n{path}")?;
        let accepted = [part.as_str()];
        let (status, windows) = if path.is_empty() { (7, 0) } else { (0, 1) };
        let parts = &accepted[..windows];
        expect_attested(&rt, alloc, (program, case), status, lines, parts)?;
    }
    Ok(())
}

/// The verdict of a feed that takes a blob byte by byte.
fn is_accepted(alloc: Global, image: &[u8], case: &[u8], blob: &[u8]) -> Result<bool, Fail> {
    if image.len() > 16_777_216 || case.len() > 4_194_304 {
        return Err(Fail::from("too long"));
    }
    let image = read_image(alloc, image).ok().ok_or("no image")?;
    let shaped = check_shape(alloc, image).ok().ok_or("no shape")?;
    let case = read_case(alloc, case).ok().ok_or("no case")?;
    let Some(_) = shaped.begin_at(case.session.op) else {
        return Err(Fail::from("no operation"));
    };
    let mut feed = Feed::new(alloc, &shaped, &case.session)?;
    for byte in blob.chunks(1) {
        feed.piece(byte)?;
    }
    Ok(matches!(feed.finish(alloc)?, FeedVerdict::Accept))
}

#[test]
fn an_attested_blob_is_accepted_byte_by_byte(rt: HostRuntime) -> Result<(), Fail> {
    let alloc = rt.alloc();
    let image = put_by(alloc, "build S", program_files(alloc)?)?;
    let text = put_by(alloc, "attest S KS", program_files(alloc)?)?;
    let mut lines = text.as_slice().split(|byte| *byte == b'\n');
    let line = lines.find(|line| line.starts_with(b"blob "));
    let digits = line.and_then(|line| line.strip_prefix(b"blob "));
    let blob = hex::decode(alloc, digits.unwrap_or(&[]))?;
    assert_eq!(rt; blob.len(), 130);
    let case = CASE.replacen(alloc, "operation 1", "operation 7", 1)?;
    assert!(rt; is_accepted(alloc, image.as_slice(), case.as_bytes(), blob.as_slice())?);
    Ok(())
}
