use oat_image::worked::ONE_JUMP;
use oat_tool::run;
use oat_world::{MemoryFile, MemoryFiles, MemorySink};
use std::alloc::{AllocError, Global};
use std::process::Abort;
use std::test::Fail;

mod attests;
mod damage;
mod drills;
mod elements;
mod json_rows;
mod outside;
mod owners;
mod policies;
mod programs;
mod texts;
mod traces;

use texts::{
    BLOB_CALLS, BLOB_DOWN, BLOB_HELPER, BLOB_LIMIT, BLOB_ORDER, BLOB_TO_END, BLOBS_BETWEEN,
    BLOBS_TWICE, CASE, CASES, CHANGED, FILES, IMAGES, TRACED,
};

const USAGE: &str =
    "usage: oat run PROG CASE | build PROG | device IMAGE CASE | verify IMAGE CASE BLOB | attest [--json] PROG CASE | drill N | trace IMAGE CASE | policy IMAGE CASE BLOB POLICY | owner SCRIPT\n";

const ONE_JUMP_PATH: &str = "accept\njump main#0 main.b\nend 1\n";

const CALLS_PATH: &str =
    "accept\ncall work#0 helper\nret helper#0 work#0\ncall work#1 helper\nret helper#0 work#1\nicall work#2 up\nret up#0 work#2\nbranch work#3 1 work.yes\njump work.yes#0 work.done\nend 2\n";

const DOWN_PATH: &str =
    "accept\ncall work#0 helper\nret helper#0 work#0\ncall work#1 helper\nret helper#0 work#1\nicall work#2 down\nret down#0 work#2\nbranch work#3 0 work.done\nend 2\n";

/// Images, cases and blobs that are refused, each for its first fault: the words, and what is said.
const REFUSED: [(&str, &str); 19] = [
    ("verify JOINED NOKEY ODD", "refused JOINED 1 Token\n"),
    ("verify LOWER KA BLOB", "refused LOWER 3 Number\n"),
    (
        "verify BEGINS NOKEY ODD",
        "refused BEGINS S2 000000000001000C\n",
    ),
    ("verify WORD KA BLOB", "refused WORD S1 0000000000010014\n"),
    (
        "verify MONITOR KA BLOB",
        "refused MONITOR S3 0000000000010014\n",
    ),
    (
        "verify OTHER_BEGIN KA BLOB",
        "refused OTHER_BEGIN S3 0000000000010000\n",
    ),
    (
        "verify NO_BLOCK KA BLOB",
        "refused NO_BLOCK S4 0000000000010008\n",
    ),
    (
        "verify BEHIND KA BLOB",
        "refused BEHIND S6 0000000000020000\n",
    ),
    (
        "verify AT_BLOCK KA BLOB",
        "refused AT_BLOCK S8 000000000001000C\n",
    ),
    ("verify BAD KB BLOB", "refused BAD S5 000000000001005C\n"),
    ("verify B NOKEY ODD", "refused NOKEY 5 Missing\n"),
    ("verify B TWICE BLOB", "refused TWICE 6 Twice\n"),
    ("verify B MANY BLOB", "refused MANY 5 Range\n"),
    ("verify B FALLS BLOB", "refused FALLS 7 Order\n"),
    ("verify B OUTSIDE BLOB", "refused OUTSIDE 6 OutsideData\n"),
    ("verify B ODDKEY BLOB", "refused ODDKEY 2 Token\n"),
    ("verify A K9 ODD", "refused K9 NoOperation 9\n"),
    ("verify A KA ODD", "refused ODD Hex\n"),
    ("device B KA", "refused KA NoOperation 1\n"),
];

/// Verdicts on blobs of the image of one jump, and of the one that doesn't end: the words, the status and the lines.
const JUDGED: [(&str, u8, &str); 14] = [
    ("verify A KA BLOB", 0, ONE_JUMP_PATH),
    ("verify A KA UPPER", 0, ONE_JUMP_PATH),
    ("verify A KA SHORT", 1, "refuse form 127\n"),
    ("verify A KA ADDED", 1, "refuse form 128\n"),
    ("verify A KA EMPTY", 1, "refuse form 0\n"),
    ("verify A KA VERSION", 1, "refuse form 4\n"),
    ("verify A KA NINE", 1, "refuse form 93\n"),
    ("verify A KA FLAG", 1, "refuse form 87\n"),
    ("verify A KA LAST", 1, "refuse mac\n"),
    ("verify A KA LAST_NONCE", 1, "refuse mac\n"),
    ("verify A KA NONCE", 1, "refuse nonce\n"),
    ("verify A KA OP2", 1, "refuse operation\n"),
    ("verify A KA OTHER", 1, "refuse image\n"),
    ("verify C KA BLOB_C", 1, "refuse replay 4194305 PathLimit\n"),
];

/// Verdicts on blobs of a session with several windows: of another number than its case calls for, of none, and with a number written in.
const NUMBERED: [(&str, u8, &str); 8] = [
    (
        "verify A K2 FIRST",
        0,
        "accept 0\njump main#0 main.b\nend 1\n",
    ),
    (
        "verify A K2 SECOND",
        0,
        "accept 1\njump main#0 main.b\nend 1\n",
    ),
    ("verify A K1 SECOND", 1, "refuse serial 1\n"),
    ("verify A KA SECOND", 1, "refuse serial 1\n"),
    ("verify A K2 BLOB", 1, "refuse serial -\n"),
    ("verify A K2 MOVED", 1, "refuse mac\n"),
    ("verify A K2 REMADE", 1, "refuse hash\n"),
    ("verify D BETWEEN STALE", 1, "refuse critical 0 10 32\n"),
];

/// Verdicts on blobs of the image of calls: those of the runs below, and other records under a right HMAC.
const JUDGED_CALLS: [(&str, u8, &str); 9] = [
    ("verify B KB BLOB_CALLS", 0, CALLS_PATH),
    ("verify B ORDER BLOB_ORDER", 1, "refuse hash\n"),
    (
        "verify B TO_END BLOB_TO_END",
        1,
        "refuse replay 6 TargetsEnd\n",
    ),
    ("verify B DOWN BLOB_DOWN", 0, DOWN_PATH),
    (
        "verify B HELPER BLOB_HELPER",
        1,
        "refuse replay 6 BadTarget 00010084\n",
    ),
    ("verify B LIMIT BLOB_LIMIT", 1, "refuse critical 0 10 32\n"),
    ("verify B KB BITS_2", 1, "refuse replay 11 BitsLeft 1\n"),
    ("verify B KB BITS_0", 1, "refuse replay 9 BitsEnd\n"),
    (
        "verify B KB TARGETS_2",
        1,
        "refuse replay 11 TargetsLeft 1\n",
    ),
];

/// Runs of the image of calls: nobody writes; a lawful return address in the wrong order; returns to the end of the
/// operation and to its begin; other functions in the table, and none; other values in the cell; a return into data; up
/// to the step that seals the window. Then with the operation called twice: two windows are called for, three, and two with
/// another value in the cell from between them on. The words, the status, the run lines and the lines of the blobs.
const MEASURED: [(&str, u8, &str, &str); 15] = [
    ("device B KB", 0, "out 7\nended halted\n", BLOB_CALLS),
    ("device B ORDER", 0, "out 7\nended halted\n", BLOB_ORDER),
    ("device B TO_END", 0, "ended halted\n", BLOB_TO_END),
    ("device B TO_BEGIN", 7, "ended stopped Nested\n", ""),
    ("device B DOWN", 0, "ended halted\n", BLOB_DOWN),
    ("device B HELPER", 0, "out 0\nended halted\n", BLOB_HELPER),
    ("device B LIMIT", 0, "out 7\nended halted\n", BLOB_LIMIT),
    ("device B RESTORED", 0, "out 7\nended halted\n", BLOB_CALLS),
    ("device B NULL", 7, "ended trap NullCall\n", ""),
    (
        "device B DATA",
        7,
        "ended fault Fetch 0000000040000000\n",
        "",
    ),
    ("device B STEPS_40", 7, "out 7\nended steps\n", ""),
    ("device B STEPS_41", 0, "out 7\nended steps\n", BLOB_CALLS),
    (
        "device D KD2",
        0,
        "out 7\nout 7\nended halted\n",
        BLOBS_TWICE,
    ),
    (
        "device D KD3",
        7,
        "out 7\nout 7\nended halted\n",
        BLOBS_TWICE,
    ),
    (
        "device D BETWEEN",
        0,
        "out 7\nout 7\nended halted\n",
        BLOBS_BETWEEN,
    ),
];

fn file(alloc: Global, name: &str, bytes: &[u8]) -> Result<MemoryFile, AllocError> {
    Ok(MemoryFile {
        name: String::from_str(alloc, name)?,
        bytes: Vec::from_slice(alloc, bytes)?,
    })
}

/// A file that has the text of another one with one part in place of another.
fn changed_file(
    alloc: Global,
    name: &str,
    text: &str,
    parts: (&str, &str),
) -> Result<MemoryFile, AllocError> {
    let changed = text.replacen(alloc, parts.0, parts.1, 1)?;
    file(alloc, name, changed.as_bytes())
}

fn all_files(alloc: Global) -> Result<Vec<MemoryFile>, AllocError> {
    let mut files = Vec::new(alloc);
    for (name, text) in FILES {
        files.push(file(alloc, name, text.as_bytes())?)?;
    }
    for (name, old, new) in CASES {
        files.push(changed_file(alloc, name, CASE, (old, new))?)?;
    }
    for (name, old, new) in TRACED {
        files.push(changed_file(alloc, name, CASE, (old, new))?)?;
    }
    for (name, old, new) in IMAGES {
        files.push(changed_file(alloc, name, ONE_JUMP, (old, new))?)?;
    }
    for (name, text, old, new) in CHANGED {
        files.push(changed_file(alloc, name, text, (old, new))?)?;
    }
    Ok(files)
}

/// The status of a call with the words of a line.
fn call(
    alloc: Global,
    line: &str,
    files: &mut MemoryFiles,
    out: &mut MemorySink,
    err: &mut MemorySink,
) -> Result<u8, AllocError> {
    let mut words = Vec::new(alloc);
    for word in line.split_whitespace() {
        words.push(String::from_str(alloc, word)?)?;
    }
    Ok(run(alloc, words.as_slice(), files, out, err))
}

/// Makes a call with the words of a line, and asserts its status and what it puts.
fn expect(
    rt: &impl Abort,
    alloc: Global,
    line: &str,
    files: &mut MemoryFiles,
    sinks: (MemorySink, MemorySink),
    want: (u8, &str, &str),
) -> Result<(), AllocError> {
    let (mut out, mut err) = sinks;
    let status = call(alloc, line, files, &mut out, &mut err)?;
    assert_eq!(rt; status, want.0, "{line}");
    assert_eq!(rt; out.held(), want.1.as_bytes(), "{line}");
    assert_eq!(rt; err.held(), want.2.as_bytes(), "{line}");
    Ok(())
}

/// The same with these files and with outputs, which don't fail and take 16 bytes a put.
fn expect_among(
    rt: &impl Abort,
    alloc: Global,
    line: &str,
    files: Vec<MemoryFile>,
    want: (u8, &str, &str),
) -> Result<(), AllocError> {
    let mut files = MemoryFiles::new(files, Vec::new(alloc));
    let sinks = (
        MemorySink::new(16, Vec::new(alloc)),
        MemorySink::new(16, Vec::new(alloc)),
    );
    expect(rt, alloc, line, &mut files, sinks, want)
}

fn expect_plain(
    rt: &impl Abort,
    alloc: Global,
    line: &str,
    want: (u8, &str, &str),
) -> Result<(), AllocError> {
    expect_among(rt, alloc, line, all_files(alloc)?, want)
}

#[test]
fn inputs_are_refused_by_their_first_fault(rt: HostRuntime) -> Result<(), Fail> {
    for (line, said) in REFUSED {
        expect_plain(&rt, rt.alloc(), line, (2, "", said))?;
    }
    let long = vec![in rt.alloc(); 10u8; 4_194_305]?;
    let mut files = all_files(rt.alloc())?;
    files.push(file(rt.alloc(), "LONG", long.as_slice())?)?;
    let want = (2, "", "refused LONG TooLong 4194304\n");
    expect_among(&rt, rt.alloc(), "verify A LONG BLOB", files, want)?;
    Ok(())
}

#[test]
fn blobs_are_judged(rt: HostRuntime) -> Result<(), Fail> {
    for (line, status, text) in JUDGED {
        expect_plain(&rt, rt.alloc(), line, (status, text, ""))?;
    }
    Ok(())
}

#[test]
fn numbered_blobs_are_judged(rt: HostRuntime) -> Result<(), Fail> {
    for (line, status, text) in NUMBERED {
        expect_plain(&rt, rt.alloc(), line, (status, text, ""))?;
    }
    Ok(())
}

#[test]
fn blobs_of_calls_are_judged(rt: HostRuntime) -> Result<(), Fail> {
    for (line, status, text) in JUDGED_CALLS {
        expect_plain(&rt, rt.alloc(), line, (status, text, ""))?;
    }
    Ok(())
}

#[test]
fn runs_are_measured(rt: HostRuntime) -> Result<(), Fail> {
    for (line, status, lines, blob) in MEASURED {
        let text = format!(in rt.alloc(); "{lines}{blob}")?;
        let said = if status == 0 { "" } else { "no blob\n" };
        expect_plain(&rt, rt.alloc(), line, (status, text.as_str(), said))?;
    }
    Ok(())
}

/// Calls without work, and calls of which a load, or a put on the first or the second output, fails by its number: the status, and what is put.
const FAILING: [(&str, [&[u64]; 3], u8, &str, &str); 4] = [
    ("", [&[], &[], &[]], 3, "", USAGE),
    ("verify A KA X", [&[], &[], &[]], 4, "", "read fault X\n"),
    (
        "verify A KA BLOB",
        [&[], &[2], &[]],
        5,
        "accept\njump mai",
        "",
    ),
    ("verify A KA X", [&[], &[], &[1]], 5, "", "read fau"),
];

/// An output that takes 8 bytes a put, and fails at some.
fn failing_sink(alloc: Global, failing: &[u64]) -> Result<MemorySink, AllocError> {
    Ok(MemorySink::new(8, Vec::from_slice(alloc, failing)?))
}

#[test]
fn loads_and_puts_may_fail(rt: HostRuntime) -> Result<(), Fail> {
    let alloc = rt.alloc();
    for (line, failing, status, text, said) in FAILING {
        let mut files = MemoryFiles::new(all_files(alloc)?, Vec::from_slice(alloc, failing[0])?);
        let sinks = (
            failing_sink(alloc, failing[1])?,
            failing_sink(alloc, failing[2])?,
        );
        expect(&rt, alloc, line, &mut files, sinks, (status, text, said))?;
    }
    Ok(())
}
