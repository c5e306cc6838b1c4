//! Calls of `trace`.

use super::expect_plain;
use std::alloc::{AllocError, Global};
use std::test::Fail;

/// The path of the run of the image of calls: what stands in front of the second return, and the rest.
pub const FRONT: &str = "call work#0 helper\nret helper#0 work#0\ncall work#1 helper\n";

pub const REST: &str =
    "ret helper#0 work#1\nicall work#2 up\nret up#0 work#2\nbranch work#3 1 work.yes\njump work.yes#0 work.done\nend 2\n";

const DOWN_REST: &str =
    "ret helper#0 work#1\nicall work#2 down\nret down#0 work#2\nbranch work#3 0 work.done\nend 2\n";

const SEVEN: &str = "out 7\nended halted\n";

const SEVEN_TWICE: &str = "out 7\nout 7\nended halted\n";

const USED: &str = "use 0 10 10\n";

const WRONG_LIMIT: &str = "refuse critical 0 10 32\n";

const WRONG_USE: &str = "use 0 32 10\n";

/// Runs of the image of calls beside their verdicts: nobody writes; a return to the end of the operation, and into a branch's group; another value in the cell,
/// and another function in the table, before the window; a return behind the window; one to the operation's begin; a lawful one in the wrong order. Then two
/// windows: both accepted, with a third one called for, and with another value in the cell from between them on. The words, the status, and the text.
const TRACED: [(&str, u8, &[&str]); 11] = [
    (
        "trace B KB",
        0,
        &[SEVEN, "accept\n", FRONT, REST, USED, "same\n"],
    ),
    (
        "trace B TO_END",
        1,
        &[
            "ended halted\n",
            "refuse replay 6 TargetsEnd\n",
            FRONT,
            "stray 00010098 0001006C\nend 2\n",
        ],
    ),
    (
        "trace B TO_BRANCH",
        1,
        &[
            "out 0\nended halted\n",
            "refuse replay 6 TargetsEnd\n",
            FRONT,
            "stray 00010098 0001005C\nbranch work#3 1 work.yes\njump work.yes#0 work.done\nend 2\n",
        ],
    ),
    (
        "trace B EARLY_LIMIT",
        1,
        &[SEVEN, WRONG_LIMIT, FRONT, REST, WRONG_USE],
    ),
    (
        "trace B EARLY_DOWN",
        0,
        &[
            "ended halted\n",
            "accept\n",
            FRONT,
            DOWN_REST,
            USED,
            "same\n",
        ],
    ),
    (
        "trace B AFTERWARDS",
        0,
        &[
            "out 7\nout 7\nended fault Access 0000000080000000\n",
            "accept\n",
            FRONT,
            REST,
            USED,
            "same\n",
        ],
    ),
    ("trace B TO_BEGIN", 7, &["ended stopped Nested\n"]),
    (
        "trace B ORDER",
        1,
        &[
            SEVEN,
            "refuse hash\n",
            FRONT,
            "ret helper#0 work#0\ncall work#1 helper\n",
            REST,
            USED,
        ],
    ),
    (
        "trace D KD2",
        0,
        &[
            SEVEN_TWICE,
            "accept 0\n",
            FRONT,
            REST,
            USED,
            "same\n",
            "accept 1\n",
            FRONT,
            REST,
            USED,
            "same\n",
        ],
    ),
    (
        "trace D KD3",
        7,
        &[
            SEVEN_TWICE,
            "accept 0\n",
            FRONT,
            REST,
            USED,
            "same\n",
            "accept 1\n",
            FRONT,
            REST,
            USED,
            "same\n",
        ],
    ),
    (
        "trace D BETWEEN",
        1,
        &[
            SEVEN_TWICE,
            "accept 0\n",
            FRONT,
            REST,
            USED,
            "same\n",
            WRONG_LIMIT,
            FRONT,
            REST,
            WRONG_USE,
        ],
    ),
];

pub fn joined(alloc: Global, parts: &[&str]) -> Result<String, AllocError> {
    let mut text = String::new(alloc);
    for part in parts {
        text.push_str(part)?;
    }
    Ok(text)
}

#[test]
fn runs_are_shown_beside_their_verdicts(rt: HostRuntime) -> Result<(), Fail> {
    for (line, status, parts) in TRACED {
        let text = joined(rt.alloc(), parts)?;
        let said = if status == 7 { "no blob\n" } else { "" };
        expect_plain(&rt, rt.alloc(), line, (status, text.as_str(), said))?;
    }
    Ok(())
}
