//! Calls of `drill`.

use super::{USAGE, expect_plain};
use oat_attestation::attest;
use oat_check::{Checked, check};
use oat_lines::lower_digits;
use oat_make::{make_case, make_program};
use oat_report::path_line;
use oat_text::read_program;
use oat_verify::Verdict;
use sha2::{Digest, Sha256};
use std::alloc::Global;
use std::test::Fail;

/// The reports on two drills, and words that are no number of a drill.
const DRILLS: [(&str, u8, &str, &str); 5] = [
    (
        "drill 1",
        0,
        "drill 1\noutputs 80\npath 4243\ndigest a9ee38f081cb7c264e8c1bc49e9e1df6fa9c1655c0f26a64972b9ff5f30dfa75\naccept\n",
        "",
    ),
    (
        "drill 4294967295",
        0,
        "drill 4294967295\noutputs 80\npath 4243\ndigest 5b797b19e6f61431d5cab06d3d01bc720da6de3961983197c0aead3b0393fe6d\naccept\n",
        "",
    ),
    ("drill 4294967296", 3, "", USAGE),
    ("drill -1", 3, "", USAGE),
    ("drill 00000000001", 3, "", USAGE),
];

fn made(alloc: Global, number: u32) -> Result<Checked, Fail> {
    let text = make_program(alloc, number)?;
    if text.len() > 1_048_576 {
        return Err(Fail::from("too long"));
    }
    let program = read_program(alloc, text.as_slice())
        .ok()
        .ok_or("no program")?;
    if !program.well_formed() {
        return Err(Fail::from("no program"));
    }
    match check(program) {
        Ok(checked) => Ok(checked),
        Err(_) => Err(Fail::from("a rule is broken")),
    }
}

/// The report of what is attested of a number's program and case.
fn attested_report(alloc: Global, number: u32) -> Result<String, Fail> {
    let checked = made(alloc, number)?;
    let case = make_case(alloc, number)?;
    if !checked.has_operation(case.session.op) {
        return Err(Fail::from("no operation"));
    }
    let attested = attest(alloc, &checked, &case).ok().ok_or("no image")?;
    let Some(Verdict::Accept(path)) = attested.verdicts.as_slice().first() else {
        return Err(Fail::from("no acceptance"));
    };
    let mut hasher = Sha256::new();
    for edge in path.as_slice() {
        let line = path_line(alloc, &attested.shaped.image().map, edge)?;
        hasher.update(line.as_slice());
        hasher.update(b"\n");
    }
    let digest = hasher.finalize();
    let mut digits = [0; 64];
    let digits = str::from_utf8(lower_digits(&digest, &mut digits)).unwrap_or("");
    let outputs = attested.outputs.as_slice().len();
    let edges = path.as_slice().len();
    Ok(format!(in alloc;
        "drill {number}\noutputs {outputs}\npath {edges}\ndigest {digits}\naccept\n"
    )?)
}

#[test]
fn drills_are_reported(rt: HostRuntime) -> Result<(), Fail> {
    for (line, status, text, said) in DRILLS {
        expect_plain(&rt, rt.alloc(), line, (status, text, said))?;
    }
    let text = attested_report(rt.alloc(), 2)?;
    expect_plain(&rt, rt.alloc(), "drill 2", (0, text.as_str(), ""))?;
    Ok(())
}
