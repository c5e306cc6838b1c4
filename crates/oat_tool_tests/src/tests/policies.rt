//! Calls of `policy`.

use super::{CALLS_PATH, DOWN_PATH, all_files, expect_among, file};
use std::alloc::{AllocError, Global};
use std::process::Abort;
use std::test::Fail;

/// Policies of accepted paths, of the run of the image of calls, of that with another function in the table, and of the second window of a
/// session; then of a blob that is refused. The words, the policy, the status, what the verdict puts, and the policy's line.
const JUDGED: [(&str, &str, u8, &str, &str); 10] = [
    (
        "policy B KB BLOB_CALLS P",
        "",
        0,
        CALLS_PATH,
        "policy holds\n",
    ),
    (
        "policy B KB BLOB_CALLS P",
        "never icall:*:down\nbefore call:*:helper icall:*:*\n",
        0,
        CALLS_PATH,
        "policy holds\n",
    ),
    (
        "policy B KB BLOB_CALLS P",
        "most 1 call:*:helper",
        1,
        CALLS_PATH,
        "policy breaks 1 3\n",
    ),
    (
        "policy B KB BLOB_CALLS P",
        "order icall:*:up call:*:helper",
        1,
        CALLS_PATH,
        "policy breaks 1 10\n",
    ),
    (
        "policy B KB BLOB_CALLS P",
        "; \0\n\nnever a:aaaaaaaaaaaaaaaaaaaaaaaaaaaaaaaaaaaaaaaaaaaaaaaaaaaaaaaaaaaaaaaaaaaaaaaaaaaaaaaaaaaaaaaaaaaaaaaaaaaa\nmost 4194304 *:*:*\nmost 0 end:2\n",
        1,
        CALLS_PATH,
        "policy breaks 5 9\n",
    ),
    (
        "policy B DOWN BLOB_DOWN P",
        "never icall:*:down",
        1,
        DOWN_PATH,
        "policy breaks 1 5\n",
    ),
    (
        "policy B DOWN BLOB_DOWN P",
        "never icall:*:up",
        0,
        DOWN_PATH,
        "policy holds\n",
    ),
    (
        "policy A K2 SECOND P",
        "never jump:main#0:main.b",
        1,
        "accept 1\njump main#0 main.b\nend 1\n",
        "policy breaks 1 1\n",
    ),
    ("policy B ORDER BLOB_ORDER P", "", 1, "refuse hash\n", ""),
    (
        "policy B KB BITS_0 P",
        "never icall:*:up",
        1,
        "refuse replay 9 BitsEnd\n",
        "",
    ),
];

/// Policies that are refused, or of which an input before them is: the words, the policy, and what is said.
const REFUSED: [(&str, &str, &str); 9] = [
    (
        "policy B KB BLOB_CALLS P",
        "never call",
        "refused P 1 Token\n",
    ),
    (
        "policy B KB BLOB_CALLS P",
        "never a:b:c:d:e",
        "refused P 1 Token\n",
    ),
    (
        "policy B KB BLOB_CALLS P",
        "never a:aaaaaaaaaaaaaaaaaaaaaaaaaaaaaaaaaaaaaaaaaaaaaaaaaaaaaaaaaaaaaaaaaaaaaaaaaaaaaaaaaaaaaaaaaaaaaaaaaaaaa",
        "refused P 1 Token\n",
    ),
    (
        "policy B KB BLOB_CALLS P",
        "\nnever a:b\0",
        "refused P 2 Token\n",
    ),
    (
        "policy B KB BLOB_CALLS P",
        "never a:b\n\0",
        "refused P 2 Token\n",
    ),
    (
        "policy B KB BLOB_CALLS P",
        "most -1 a:b",
        "refused P 1 Number\n",
    ),
    (
        "policy B ORDER BLOB_ORDER P",
        "never call",
        "refused P 1 Token\n",
    ),
    ("policy A KA ODD P", "never call", "refused ODD Hex\n"),
    (
        "policy A K9 ODD P",
        "never call",
        "refused K9 NoOperation 9\n",
    ),
];

/// Makes a call on the files of all rows and such a policy.
fn expect_policy(
    rt: &impl Abort,
    alloc: Global,
    line: &str,
    policy: &[u8],
    want: (u8, &str, &str),
) -> Result<(), AllocError> {
    let mut files = all_files(alloc)?;
    files.push(file(alloc, "P", policy)?)?;
    expect_among(rt, alloc, line, files, want)
}

#[test]
fn paths_are_judged_by_policies(rt: HostRuntime) -> Result<(), Fail> {
    for (line, policy, status, path, said) in JUDGED {
        let text = format!(in rt.alloc(); "{path}{said}")?;
        expect_policy(
            &rt,
            rt.alloc(),
            line,
            policy.as_bytes(),
            (status, text.as_str(), ""),
        )?;
    }
    for (line, policy, said) in REFUSED {
        expect_policy(&rt, rt.alloc(), line, policy.as_bytes(), (2, "", said))?;
    }
    Ok(())
}

#[test]
fn policies_are_loaded_last_and_within_their_limit(rt: HostRuntime) -> Result<(), Fail> {
    let whole = format!(in rt.alloc(); "{CALLS_PATH}policy holds\n")?;
    let table: [(&str, usize, (u8, &str, &str)); 4] = [
        ("policy B KB BLOB_CALLS P", 65_536, (0, whole.as_str(), "")),
        (
            "policy JOINED KB ODD P",
            65_537,
            (2, "", "refused P TooLong 65536\n"),
        ),
        ("policy B KB X P", 65_537, (4, "", "read fault X\n")),
        ("policy B KB BLOB_CALLS X", 0, (4, "", "read fault X\n")),
    ];
    for (line, count, want) in table {
        let policy = vec![in rt.alloc(); 10u8; count]?;
        expect_policy(&rt, rt.alloc(), line, policy.as_slice(), want)?;
    }
    Ok(())
}
