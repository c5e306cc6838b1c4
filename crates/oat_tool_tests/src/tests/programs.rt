//! Calls of `run`.

use super::texts::CASE;
use super::{call, changed_file, expect, file};
use oat_world::{MemoryFile, MemoryFiles, MemorySink};
use std::alloc::{AllocError, Global};
use std::process::Abort;
use std::test::Fail;

/// An operation with nothing in it, and a main function that calls it.
pub const IDLE: &str =
    "operation 1 idle\nlocal z i64\nblock b0\nret z\nend\nmain\nlocal s i64\nblock b0\ncall s idle\nhalt\nend\n";

/// A loop that scales, clips and adds its inputs.
pub const LOOP: &str =
    "critical limit 50\nglobal total 0\nfunc scale v:i64\nlocal k i64\nlocal r i64\nblock b0\nconst k 3\nmul r v k\nret r\nend\nfunc clip v:i64\nlocal m i64\nlocal c i64\nblock b0\nload m limit\nlt c m v\nbranch c over under\nblock over\nret m\nblock under\nret v\nend\noperation 7 measure n:i64\nlocal i i64\nlocal one i64\nlocal x i64\nlocal c i64\nlocal t i64\nblock b0\nconst one 1\njump test\nblock test\nlt c i n\nbranch c body done\nblock body\nin x\ncall x scale x\ncall x clip x\nload t total\nadd t t x\nstore total t\nout x\nadd i i one\njump test\nblock done\nload t total\nret t\nend\nmain\nlocal n i64\nlocal s i64\nblock b0\nconst n 5\ncall s measure n\nout s\nhalt\nend\n";

/// A function that calls itself.
const DEEP: &str =
    "operation 1 idle\nlocal z i64\nblock b0\nret z\nend\nfunc down n:i64\nlocal one i64\nlocal r i64\nblock b0\nconst one 1\nsub n n one\nbranch n more stop\nblock more\ncall r down n\nadd r r one\nret r\nblock stop\nret one\nend\nmain\nlocal n i64\nlocal s i64\nblock b0\ncall s idle\nconst n 256\ncall s down n\nout s\nhalt\nend\n";

/// A main function that prints an element of an array.
const ELEMENT: &str =
    "array a 4\noperation 1 idle\nlocal z i64\nblock b0\nret z\nend\nmain\nlocal i i64\nlocal x i64\nblock b0\nconst i 3\nloadx x a i\nout x\nhalt\nend\n";

/// An operation that stores and loads elements of a critical array, and a main function that asks for one more.
const LIMITS: &str =
    "criticals lim 3\noperation 1 work n:i64\nlocal k i64\nlocal v i64\nblock b0\nconst k 2\nconst v 9\nstorex lim k v\nloadx v lim k\nout v\nloadx v lim n\nret v\nend\nmain\nlocal n i64\nlocal s i64\nblock b0\ncall s work n\nout s\nconst n 3\nloadx s lim n\nhalt\nend\n";

/// The texts of files.
const TEXTS: [(&str, &str); 12] = [
    ("Q", LIMITS),
    ("I", IDLE),
    ("S", LOOP),
    ("R", DEEP),
    ("INDEX_3", ELEMENT),
    ("GLOBL", "globl x 1\n"),
    ("NAME", "global 9x 1\n"),
    ("LARGE", "global x 9223372036854775808\n"),
    ("AGAIN", "global x 1\nglobal x 1\n"),
    ("NOWHERE", "main\nblock b0\njump c\nend\n"),
    ("EMPTY", ""),
    ("KA", CASE),
];

/// The texts of files that have one part of another text changed.
const CHANGED: [(&str, &str, &str, &str); 7] = [
    (
        "DIVIDES",
        IDLE,
        "block b0\ncall s idle\n",
        "local a i64\nlocal b i64\nblock b0\nconst a -9223372036854775808\nconst b -1\ndiv s a b\nout s\nrem s a b\nout s\nconst b 0\ndiv s a b\n",
    ),
    ("INDEX_4", ELEMENT, "const i 3", "const i 4"),
    ("INDEX_LESS", ELEMENT, "const i 3", "const i -1"),
    (
        "UNSET",
        IDLE,
        "block b0\ncall s idle\n",
        "local f fn/0\nblock b0\nicall s f\n",
    ),
    ("R_257", DEEP, "const n 256", "const n 257"),
    ("PLAIN", DEEP, "call r down n", "call r idle"),
    ("ENDLESS", IDLE, "ret z", "jump b0"),
];

/// The texts of files that have one part of the case changed.
const CASES: [(&str, &str, &str); 3] = [
    (
        "KS",
        "operation 1\nsteps 100000\n",
        "operation 7\nsteps 100000\ninput 10\ninput 20\ninput 16\ninput 17\ninput 0\n",
    ),
    (
        "KS_4",
        "operation 1\nsteps 100000\n",
        "operation 7\nsteps 100000\ninput 10\ninput 20\ninput 16\ninput 17\n",
    ),
    (
        "NOKEY",
        "key 0b0b0b0b0b0b0b0b0b0b0b0b0b0b0b0b0b0b0b0b\n",
        "",
    ),
];

const LOOP_PATH: &str =
    "jump measure.b0#0 measure.test\nbranch measure.test#0 1 measure.body\ncall measure.body#0 scale\nret scale.b0#0 measure.body#0\ncall measure.body#1 clip\nbranch clip.b0#0 0 clip.under\nret clip.under#0 measure.body#1\njump measure.body#2 measure.test\nbranch measure.test#0 1 measure.body\ncall measure.body#0 scale\nret scale.b0#0 measure.body#0\ncall measure.body#1 clip\nbranch clip.b0#0 1 clip.over\nret clip.over#0 measure.body#1\njump measure.body#2 measure.test\nbranch measure.test#0 1 measure.body\ncall measure.body#0 scale\nret scale.b0#0 measure.body#0\ncall measure.body#1 clip\nbranch clip.b0#0 0 clip.under\nret clip.under#0 measure.body#1\njump measure.body#2 measure.test\nbranch measure.test#0 1 measure.body\ncall measure.body#0 scale\nret scale.b0#0 measure.body#0\ncall measure.body#1 clip\nbranch clip.b0#0 1 clip.over\nret clip.over#0 measure.body#1\njump measure.body#2 measure.test\nbranch measure.test#0 1 measure.body\ncall measure.body#0 scale\nret scale.b0#0 measure.body#0\ncall measure.body#1 clip\nbranch clip.b0#0 0 clip.under\nret clip.under#0 measure.body#1\njump measure.body#2 measure.test\nbranch measure.test#0 0 measure.done\nend 7\n";

/// Runs of programs: a loop; the least number divided by -1, and a division by 0; elements of an array and none; a local
/// that was never set; an input that isn't there; 256 calls and one more; elements of a critical array. The program, the
/// case, the run lines and the path lines.
pub const RAN: [(&str, &str, &str, &str); 11] = [
    (
        "S",
        "KS",
        "out 30\nout 50\nout 48\nout 50\nout 0\nout 178\nended halted\n",
        LOOP_PATH,
    ),
    ("I", "KA", "ended halted\n", "end 1\n"),
    (
        "DIVIDES",
        "KA",
        "out -9223372036854775808\nout 0\nended trap DivZero\n",
        "",
    ),
    ("INDEX_3", "KA", "out 0\nended halted\n", ""),
    ("INDEX_4", "KA", "ended trap Index\n", ""),
    ("INDEX_LESS", "KA", "ended trap Index\n", ""),
    ("UNSET", "KA", "ended trap NullCall\n", ""),
    (
        "S",
        "KS_4",
        "out 30\nout 50\nout 48\nout 50\nended trap InputEnd\n",
        "",
    ),
    ("R", "KA", "out 256\nended halted\n", "end 1\n"),
    ("R_257", "KA", "ended trap Depth\n", "end 1\n"),
    ("Q", "KA", "out 9\nout 0\nended trap Index\n", "end 1\n"),
];

/// Programs that are refused, or their cases: the words, and what is said.
const REFUSED: [(&str, &str); 17] = [
    ("build NOWHERE", "refused NOWHERE 3 Unknown\n"),
    ("build PLAIN", "refused PLAIN down more 0 OperationCall\n"),
    ("run GLOBL NOKEY", "refused GLOBL 1 Expected\n"),
    ("run NAME KA", "refused NAME 1 Token\n"),
    ("run LARGE KA", "refused LARGE 1 Number\n"),
    ("run AGAIN KA", "refused AGAIN 2 Duplicate\n"),
    ("run NOWHERE KA", "refused NOWHERE 3 Unknown\n"),
    ("run EMPTY NOKEY", "refused EMPTY - - 0 NoMain\n"),
    ("run PLAIN KA", "refused PLAIN down more 0 OperationCall\n"),
    ("run ENDLESS KA", "refused ENDLESS idle - 0 NoEnd\n"),
    ("run I NOKEY", "refused NOKEY 5 Missing\n"),
    ("run I KS", "refused KS NoOperation 7\n"),
    ("run OVER KA", "refused OVER TooLong 1048576\n"),
    ("attest NAME NOKEY", "refused NAME 1 Token\n"),
    ("attest I KS", "refused KS NoOperation 7\n"),
    (
        "attest --json PLAIN KS",
        "refused PLAIN down more 0 OperationCall\n",
    ),
    ("attest --json OVER KA", "refused OVER TooLong 1048576\n"),
];

pub fn program_files(alloc: Global) -> Result<Vec<MemoryFile>, AllocError> {
    let mut files = Vec::new(alloc);
    for (name, text) in TEXTS {
        files.push(file(alloc, name, text.as_bytes())?)?;
    }
    for (name, text, old, new) in CHANGED {
        files.push(changed_file(alloc, name, text, (old, new))?)?;
    }
    for (name, old, new) in CASES {
        files.push(changed_file(alloc, name, CASE, (old, new))?)?;
    }
    let over = vec![in alloc; 10u8; 1_048_577]?;
    files.push(file(alloc, "OVER", over.as_slice())?)?;
    Ok(files)
}

/// Makes a call whose first output takes 8 bytes a put, and fails at some.
fn expect_run(
    rt: &impl Abort,
    alloc: Global,
    line: &str,
    failing: &[u64],
    want: (u8, &str, &str),
) -> Result<(), AllocError> {
    let mut files = MemoryFiles::new(program_files(alloc)?, Vec::new(alloc));
    let sinks = (
        MemorySink::new(8, Vec::from_slice(alloc, failing)?),
        MemorySink::new(8, Vec::new(alloc)),
    );
    expect(rt, alloc, line, &mut files, sinks, want)
}

#[test]
fn programs_are_run(rt: HostRuntime) -> Result<(), Fail> {
    for (program, case, lines, path) in RAN {
        let line = format!(in rt.alloc(); "run {program} {case}")?;
        let text = format!(in rt.alloc(); "{lines}{path}")?;
        expect_run(&rt, rt.alloc(), line.as_str(), &[], (0, text.as_str(), ""))?;
    }
    Ok(())
}

/// What a call puts on its first output.
pub fn put_by(alloc: Global, line: &str, files: Vec<MemoryFile>) -> Result<Vec<u8>, AllocError> {
    let mut files = MemoryFiles::new(files, Vec::new(alloc));
    let mut out = MemorySink::new(4096, Vec::new(alloc));
    let mut err = MemorySink::new(16, Vec::new(alloc));
    call(alloc, line, &mut files, &mut out, &mut err)?;
    Vec::from_slice(alloc, out.held())
}

/// The files of programs, and besides an image and a blob.
pub fn files_with(alloc: Global, image: &[u8], blob: &[u8]) -> Result<Vec<MemoryFile>, AllocError> {
    let mut files = program_files(alloc)?;
    files.push(file(alloc, "IMAGE", image)?)?;
    files.push(file(alloc, "BLOB", blob)?)?;
    Ok(files)
}

/// The device puts, of the image that is built of a program, the run lines of the program's run; and where the program's
/// operation completed, a blob that is accepted with the program's path.
#[test]
fn built_images_run_as_their_programs(rt: HostRuntime) -> Result<(), Fail> {
    let alloc = rt.alloc();
    for (program, case, lines, path) in RAN {
        let build = format!(in alloc; "build {program}")?;
        let image = put_by(alloc, build.as_str(), program_files(alloc)?)?;
        let device = format!(in alloc; "device IMAGE {case}")?;
        let files = files_with(alloc, image.as_slice(), &[])?;
        let text = put_by(alloc, device.as_str(), files)?;
        let blob = text.as_slice().strip_prefix(lines.as_bytes());
        assert!(rt; blob.is_some(), "{program} {case}");
        if !path.is_empty() {
            let verify = format!(in alloc; "verify IMAGE {case} BLOB")?;
            let files = files_with(alloc, image.as_slice(), blob.unwrap_or(&[]))?;
            let report = format!(in alloc; "accept\n{path}")?;
            let put = put_by(alloc, verify.as_str(), files)?;
            assert_eq!(rt; put.as_slice(), report.as_bytes(), "{program} {case}");
        }
    }
    Ok(())
}

#[test]
fn programs_are_refused_by_their_first_fault(rt: HostRuntime) -> Result<(), Fail> {
    for (line, said) in REFUSED {
        expect_run(&rt, rt.alloc(), line, &[], (2, "", said))?;
    }
    Ok(())
}

#[test]
fn lines_stop_at_a_put_that_fails(rt: HostRuntime) -> Result<(), Fail> {
    for line in ["run S KS", "attest S KS"] {
        expect_run(&rt, rt.alloc(), line, &[1], (5, "out 30\n", ""))?;
    }
    Ok(())
}
