//! Loads and puts that fail, each in turn.

use super::texts::{BLOB, CASE};
use super::{ONE_JUMP_PATH, expect, file};
use oat_image::worked::ONE_JUMP;
use oat_world::{MemoryFile, MemoryFiles, MemorySink};
use std::alloc::{AllocError, Global};
use std::process::Abort;
use std::test::Fail;

const VERIFY: &str = "verify A KA BLOB";

/// Makes a call on three files and on outputs that take one byte a put. What fails is named by its number: loads, and puts on either output.
fn expect_failing(
    rt: &impl Abort,
    alloc: Global,
    line: &str,
    failing: [&[u64]; 3],
    want: (u8, &str, &str),
) -> Result<(), AllocError> {
    let mut files = Vec::new(alloc);
    for (name, text) in [("A", ONE_JUMP), ("KA", CASE), ("BLOB", BLOB)] {
        files.push(file(alloc, name, text.as_bytes())?)?;
    }
    let mut files = MemoryFiles::new(files, Vec::from_slice(alloc, failing[0])?);
    let sinks = (
        MemorySink::new(1, Vec::from_slice(alloc, failing[1])?),
        MemorySink::new(1, Vec::from_slice(alloc, failing[2])?),
    );
    expect(rt, alloc, line, &mut files, sinks, want)
}

#[test]
fn each_load_may_fail(rt: HostRuntime) -> Result<(), Fail> {
    for (number, name) in [(0, "A"), (1, "KA"), (2, "BLOB")] {
        let said = format!(in rt.alloc(); "read fault {name}\n")?;
        let want = (4, "", said.as_str());
        expect_failing(&rt, rt.alloc(), VERIFY, [&[number], &[], &[]], want)?;
    }
    Ok(())
}

/// The front of the text that was put before the put that fails, up to none that fails.
#[test]
fn each_put_may_fail(rt: HostRuntime) -> Result<(), Fail> {
    let mut front = String::new(rt.alloc());
    for (number, letter) in ONE_JUMP_PATH.chars().enumerate() {
        let want = (5, front.as_str(), "");
        expect_failing(&rt, rt.alloc(), VERIFY, [&[], &[number as u64], &[]], want)?;
        front.push(letter)?;
    }
    let behind = front.len() as u64;
    let want = (0, front.as_str(), "");
    expect_failing(&rt, rt.alloc(), VERIFY, [&[], &[behind], &[]], want)?;
    Ok(())
}

#[test]
fn the_usage_may_fail(rt: HostRuntime) -> Result<(), Fail> {
    expect_failing(&rt, rt.alloc(), "", [&[], &[], &[0]], (5, "", ""))?;
    Ok(())
}
