//! Calls of `owner`.

use super::texts::{BLOB, BLOB_HELPER, BLOB_LIMIT, BLOB_ORDER, BLOB_TO_END, FIRST_WINDOW, IMAGES};
use super::traces::{FRONT, REST, joined};
use super::{changed_file, expect, expect_among, file};
use oat_image::worked::{CALLS, ONE_JUMP};
use oat_world::{MemoryFile, MemoryFiles, MemorySink};
use std::alloc::{AllocError, Global};
use std::process::Abort;
use std::test::Fail;

/// Two devices with the image of one jump, one with the image of calls, and as many devices as there may be.
const ONE: &str = "device 1 A 0b0b0b0b0b0b0b0b0b0b0b0b0b0b0b0b0b0b0b0b\n";

const TWO: &str = "device 2 A 0b0b0b0b0b0b0b0b0b0b0b0b0b0b0b0b0b0b0b0b\n";

const OTHER: &str = "device 3 B 0b0b0b0b0b0b0b0b0b0b0b0b0b0b0b0b0b0b0b0b\n";

const SIXTEEN: &str =
    "device 0 A 0b\ndevice 1 A 0b\ndevice 2 A 0b\ndevice 3 A 0b\ndevice 4 A 0b\ndevice 5 A 0b\ndevice 6 A 0b\ndevice 7 A 0b\ndevice 8 A 0b\ndevice 9 A 0b\ndevice 10 A 0b\ndevice 11 A 0b\ndevice 12 A 0b\ndevice 13 A 0b\ndevice 14 A 0b\ndevice 15 A 0b\n";

/// A challenge to each of the first three, with its line where it is the first one issued, or the second; and challenges that are refused.
const FIRST: &str = "challenge 1 1 000102030405060708090a0b0c0d0e0f\n";

const FIRST_0: &str = "challenge 0 4f41544301000000010001000102030405060708090a0b0c0d0e0f\n";

const SECOND: &str = "challenge 2 1 101112131415161718191a1b1c1d1e1f\n";

const SECOND_0: &str = "challenge 0 4f41544301000000020001101112131415161718191a1b1c1d1e1f\n";

const SECOND_1: &str = "challenge 1 4f41544301000000020001101112131415161718191a1b1c1d1e1f\n";

const CALLING: &str = "challenge 3 2 000102030405060708090a0b0c0d0e0f\n";

const CALLING_0: &str = "challenge 0 4f41544301000000030002000102030405060708090a0b0c0d0e0f\n";

const CALLING_1: &str = "challenge 1 4f41544301000000030002000102030405060708090a0b0c0d0e0f\n";

const FIRST_NONCE_TO_TWO: &str = "challenge 2 1 000102030405060708090a0b0c0d0e0f\n";

const USED: &str = "refused challenge UsedNonce 0\n";

const UNFIT: &str =
    "challenge 4 9 000102030405060708090a0b0c0d0e0f\nchallenge 1 2 000102030405060708090a0b0c0d0e0f\nchallenge 3 1 000102030405060708090a0b0c0d0e0f\n";

const ARE_UNFIT: &str =
    "refused challenge UnknownDevice\nrefused challenge NoOperation\nrefused challenge NoOperation\n";

/// The right answer to the first challenge, with another last byte, and from the second device; that to the challenge of calls; and replies.
const RIGHT: &str =
    "answer 4f4154410100000001000102030405060708090a0b0c0d0e0f000000804f415442010001000102030405060708090a0b0c0d0e0fbfe3efe4b055175178c67a8c93f6d0ae70a60a153fd87742e3e744f78b114bf35060e6983fe5be0d9f20c0ff07e9b06df3ad3c7b55142456359aff4e3f5a23bb0000000000000000000e7aeb524dc9cf3a9d4bed9965389815d2ce6e194f624f7e1cfb4ffafaf558a5\n";

const FORGED: &str =
    "answer 4f4154410100000001000102030405060708090a0b0c0d0e0f000000804f415442010001000102030405060708090a0b0c0d0e0fbfe3efe4b055175178c67a8c93f6d0ae70a60a153fd87742e3e744f78b114bf35060e6983fe5be0d9f20c0ff07e9b06df3ad3c7b55142456359aff4e3f5a23bb0000000000000000000e7aeb524dc9cf3a9d4bed9965389815d2ce6e194f624f7e1cfb4ffafaf558a4\n";

const FROM_TWO: &str =
    "answer 4f4154410100000002000102030405060708090a0b0c0d0e0f000000804f415442010001000102030405060708090a0b0c0d0e0fbfe3efe4b055175178c67a8c93f6d0ae70a60a153fd87742e3e744f78b114bf35060e6983fe5be0d9f20c0ff07e9b06df3ad3c7b55142456359aff4e3f5a23bb0000000000000000000e7aeb524dc9cf3a9d4bed9965389815d2ce6e194f624f7e1cfb4ffafaf558a5\n";

const OF_CALLS: &str =
    "answer 4f4154410100000003000102030405060708090a0b0c0d0e0f000000894f415442010002000102030405060708090a0b0c0d0e0fdf36513e3ff2cfa9ec497b8e82e790f094110afe98de18608448166c0b5195561736fb92427488462fba94dec5853808e9556a60106bccd4a74545562365355000000000018000000001000000000001009c576cd3fe5593aca3ff73a8f9dbb9cb8a060c3641c850eb039bcb9cd687b139af\n";

const ACCEPTED: &str = "accepted 0\njump main#0 main.b\nend 1\n";

const SPENT: &str = "refused answer spent 0\n";

const MAC: &str = "refused answer verdict 0 mac\n";

const UNASKED: &str = "refused answer challenge\n";

/// Scripts and their replies, by their parts: a right answer twice; a forged one before it; a challenge twice, and an answer from no device;
/// those of docs/OWNER.md; an answer before its challenge; a used nonce for another device, and when it is spent; refused challenges, which
/// don't use their nonce; a second challenge, whose image isn't that of the first; bytes that are no frame; no calls.
const REPLIED: [(&[&str], &[&str]); 10] = [
    (&[ONE, FIRST, RIGHT, RIGHT], &[FIRST_0, ACCEPTED, SPENT]),
    (&[ONE, FIRST, FORGED, RIGHT], &[FIRST_0, MAC, ACCEPTED]),
    (
        &[ONE, FIRST, FIRST, FROM_TWO, RIGHT],
        &[FIRST_0, USED, "refused answer device\n", ACCEPTED],
    ),
    (
        &[ONE, TWO, FIRST, SECOND, FORGED, FROM_TWO, RIGHT, RIGHT],
        &[FIRST_0, SECOND_1, MAC, UNASKED, ACCEPTED, SPENT],
    ),
    (&[ONE, RIGHT, FIRST, RIGHT], &[UNASKED, FIRST_0, ACCEPTED]),
    (
        &[ONE, TWO, FIRST, FIRST_NONCE_TO_TWO, FROM_TWO, RIGHT, FIRST],
        &[FIRST_0, USED, UNASKED, ACCEPTED, USED],
    ),
    (&[ONE, OTHER, UNFIT, FIRST], &[ARE_UNFIT, FIRST_0]),
    (
        &[ONE, TWO, OTHER, SECOND, CALLING, OF_CALLS, RIGHT],
        &[SECOND_0, CALLING_1, "accepted 1\n", FRONT, REST, UNASKED],
    ),
    (
        &[ONE, "answer 00\nanswer 4F4154\nanswer 4f41544100"],
        &["refused answer frame 0\nrefused answer frame 3\nrefused answer frame 4\n"],
    ),
    (&["; no calls\n\n", ONE], &[]),
];

/// What stands behind the nonce of an answer to a challenge of calls, digits and a blob, and how the answer is refused.
const BEHIND_NONCE: [(&str, &str, &str); 13] = [
    ("", "", "frame 25"),
    ("ffffffff", "", "frame 29"),
    ("ffffffff", BLOB, "frame 157"),
    ("00000081", BLOB, "frame 157"),
    ("0000007f", BLOB, "frame 156"),
    ("00000000", "", "verdict 0 form 0"),
    ("00000001", "4f", "verdict 0 form 1"),
    ("00000084", FIRST_WINDOW, "verdict 0 serial 0"),
    ("00000080", BLOB, "verdict 0 operation"),
    ("00000089", BLOB_ORDER, "verdict 0 hash"),
    ("00000080", BLOB_TO_END, "verdict 0 replay 6 TargetsEnd"),
    (
        "00000089",
        BLOB_HELPER,
        "verdict 0 replay 6 BadTarget 00010084",
    ),
    ("0000009d", BLOB_LIMIT, "verdict 0 critical 0 10 32"),
];

/// Scripts of two parts that are refused, or an image of theirs is, and what is said behind `refused`.
const REFUSED: [(&str, &str, &str); 20] = [
    (ONE, "answer\n", "S 2 Token"),
    (ONE, "answer 0", "S 2 Token"),
    (ONE, "foo\ndevice 1 A 0b", "S 2 Token"),
    ("", "; \0\n\ndevice 1 A\x7f 0b", "S 3 Token"),
    ("", "device 4294967296 A 0b", "S 1 Number"),
    (
        "device 1 A 0b\n",
        "challenge 1 0 000102030405060708090a0b0c0d0e0f",
        "S 2 Number",
    ),
    (ONE, "challenge 1 1 00", "S 2 Number"),
    ("", "challenge 1 0 00\ndevice 1 A 0b", "S 1 Number"),
    (ONE, "device 01 B 0c\nanswer", "S 2 Twice"),
    (ONE, "answer 00\ndevice 1 A 0b", "S 3 Twice"),
    (SIXTEEN, "device 15 A 0b", "S 17 Twice"),
    (SIXTEEN, "device 16 A 0b", "S 17 Order"),
    (ONE, "answer 00\ndevice 2 A 0b", "S 3 Order"),
    ("", "answer 4F41544100\ndevice 1 A 0b", "S 1 Order"),
    ("", "", "S 1 Order"),
    ("", "\n", "S 2 Order"),
    ("device 1 X 0b\n", "foo", "S 2 Token"),
    ("device 2 LOWER 0b\n", "device 1 X 0b", "LOWER 3 Number"),
    (
        "device 1 BEGINS 0b\n",
        "device 2 LOWER 0b",
        "BEGINS S2 000000000001000C",
    ),
    (
        ONE,
        "device 2 WORD 0b\nanswer 00",
        "WORD S1 0000000000010014",
    ),
];

/// Scripts of which a file isn't loaded: the script, the numbers of loads that fail, and the file.
const UNREAD: [(&str, &[u64], &str); 6] = [
    ("device 1 X 0b\nanswer 00", &[], "X"),
    ("device 1 B 0b\ndevice 2 X 0b", &[], "X"),
    ("device 2 X 0b\ndevice 1 LOWER 0b", &[], "X"),
    ("device 2 B 0b\ndevice 1 A 0b", &[0], "S"),
    ("device 2 B 0b\ndevice 1 A 0b", &[1], "B"),
    ("device 2 B 0b\ndevice 1 A 0b", &[2], "A"),
];

/// Numbers of puts of 8 bytes that fail, the status, and what is put of the replies to two answers.
const PUTS: [(u64, u8, &str); 3] = [
    (0, 5, ""),
    (4, 5, "refused answer frame 0\nrefused "),
    (6, 0, "refused answer frame 0\nrefused answer frame 1\n"),
];

/// Puts a script to an owner, where loads and puts fail by their numbers, and asserts the status and what is put.
fn expect_owner(
    rt: &impl Abort,
    alloc: Global,
    script: &str,
    failing: [&[u64]; 2],
    want: (u8, &str, &str),
) -> Result<(), AllocError> {
    let mut files = Vec::new(alloc);
    for (name, text) in [("A", ONE_JUMP), ("B", CALLS), ("S", script)] {
        files.push(file(alloc, name, text.as_bytes())?)?;
    }
    for (name, old, new) in IMAGES {
        files.push(changed_file(alloc, name, ONE_JUMP, (old, new))?)?;
    }
    let mut files = MemoryFiles::new(files, Vec::from_slice(alloc, failing[0])?);
    let sinks = (
        MemorySink::new(8, Vec::from_slice(alloc, failing[1])?),
        MemorySink::new(8, Vec::new(alloc)),
    );
    expect(rt, alloc, "owner S", &mut files, sinks, want)
}

#[test]
fn calls_are_replied_to(rt: HostRuntime) -> Result<(), Fail> {
    for (script, replies) in REPLIED {
        let script = joined(rt.alloc(), script)?;
        let text = joined(rt.alloc(), replies)?;
        let want = (0, text.as_str(), "");
        expect_owner(&rt, rt.alloc(), script.as_str(), [&[], &[]], want)?;
    }
    for (digits, line, said) in BEHIND_NONCE {
        let blob = line.trim_start_matches("blob ").trim_end();
        let script = format!(in rt.alloc();
            "{OTHER}{CALLING}answer 4f4154410100000003000102030405060708090a0b0c0d0e0f{digits}{blob}\n"
        )?;
        let text = format!(in rt.alloc(); "{CALLING_0}refused answer {said}\n")?;
        let want = (0, text.as_str(), "");
        expect_owner(&rt, rt.alloc(), script.as_str(), [&[], &[]], want)?;
    }
    for (number, status, text) in PUTS {
        let script = "device 1 A 0b\nanswer 00\nanswer 4f\n";
        let want = (status, text, "");
        expect_owner(&rt, rt.alloc(), script, [&[], &[number]], want)?;
    }
    Ok(())
}

#[test]
fn scripts_are_refused_by_their_first_fault(rt: HostRuntime) -> Result<(), Fail> {
    for (front, rest, said) in REFUSED {
        let script = format!(in rt.alloc(); "{front}{rest}")?;
        let text = format!(in rt.alloc(); "refused {said}\n")?;
        let want = (2, "", text.as_str());
        expect_owner(&rt, rt.alloc(), script.as_str(), [&[], &[]], want)?;
    }
    for (script, failing, name) in UNREAD {
        let text = format!(in rt.alloc(); "read fault {name}\n")?;
        let want = (4, "", text.as_str());
        expect_owner(&rt, rt.alloc(), script, [failing, &[]], want)?;
    }
    Ok(())
}

/// A script and an image with one byte more than they may have.
#[test]
fn scripts_and_images_have_their_limits(rt: HostRuntime) -> Result<(), Fail> {
    let alloc = rt.alloc();
    let table = [
        ("owner LONG", 64, "refused LONG TooLong 67108864\n"),
        ("owner S", 16, "refused LONG TooLong 16777216\n"),
    ];
    let part = vec![in alloc; 10u8; 1_048_576]?;
    for (line, count, said) in table {
        let mut bytes = Vec::from_slice(alloc, b"\n")?;
        for _ in 0..count {
            bytes.extend_from_slice(part.as_slice())?;
        }
        let name = String::from_str(alloc, "LONG")?;
        let mut files = Vec::new(alloc);
        files.push(file(alloc, "S", b"device 1 LONG 0b")?)?;
        files.push(MemoryFile { name, bytes })?;
        expect_among(&rt, alloc, line, files, (2, "", said))?;
    }
    Ok(())
}
