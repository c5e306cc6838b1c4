//! Runs of an image that uses and defines elements of a critical array, with writes between its instructions.

use super::texts::CASE;
use super::{changed_file, expect, file};
use oat_world::{MemoryFile, MemoryFiles, MemorySink};
use std::alloc::{AllocError, Global};
use std::process::Abort;
use std::test::Fail;

/// Its code: main calls operation 1 twice, which uses the element of the number in word 1, puts its value out, and defines the element of the number in word 5 as that.
const CODE: [u32; 35] = [
    0x9400_0003, // 00010000 BL 0001000C: calls the operation
    0x9400_0002, // 00010004 BL 0001000C: calls it again
    0xD400_0001, // 00010008 SVC 0: halts
    0xD280_0029, // 0001000C MOVZ X9,#1: begins operation 1
    0xD400_0021, // 00010010 SVC 1
    0xD280_010E, // 00010014 MOVZ X14,#8: the address of the word that has the used element's number
    0xF2A8_000E, // 00010018 MOVK X14,#0x4000,LSL 16
    0xF940_01CC, // 0001001C LDR X12,[X14]: the element's number
    0xD280_006B, // 00010020 MOVZ X11,#3: the use of an element of the array
    0xEB0B_019F, // 00010024 SUBS XZR,X12,X11
    0x5400_0043, // 00010028 B.LO +8
    0xD420_0040, // 0001002C BRK 2
    0xD280_020B, // 00010030 MOVZ X11,#0x10
    0xF2A8_000B, // 00010034 MOVK X11,#0x4000,LSL 16
    0xF86C_796A, // 00010038 LDR X10,[X11,X12,LSL 3]: the load of the element
    0xD280_0029, // 0001003C MOVZ X9,#1
    0x8B0C_0129, // 00010040 ADD X9,X9,X12
    0xD400_00E1, // 00010044 SVC 7: tells the monitor
    0x9100_0140, // 00010048 ADD X0,X10,#0: puts the value out
    0xD400_0121, // 0001004C SVC 9
    0xF940_11CC, // 00010050 LDR X12,[X14,#32]: the number of the element that is defined
    0xD280_006B, // 00010054 MOVZ X11,#3: the define of an element of the array
    0xEB0B_019F, // 00010058 SUBS XZR,X12,X11
    0x5400_0043, // 0001005C B.LO +8
    0xD420_0040, // 00010060 BRK 2
    0xD280_020B, // 00010064 MOVZ X11,#0x10
    0xF2A8_000B, // 00010068 MOVK X11,#0x4000,LSL 16
    0xD280_0029, // 0001006C MOVZ X9,#1
    0x8B0C_0129, // 00010070 ADD X9,X9,X12
    0xF82C_796A, // 00010074 STR X10,[X11,X12,LSL 3]: the store of the element
    0xD400_00C1, // 00010078 SVC 6: tells the monitor
    0xD280_0029, // 0001007C MOVZ X9,#1: ends the operation
    0xD400_0041, // 00010080 SVC 2
    0xD400_00A1, // 00010084 SVC 5: goes back
    0xD65F_03C0, // 00010088 RET
];

/// The array has the words 2, 3 and 4 and the cells 1, 2 and 3. Element 1 is used, and element 2 is defined.
const BEHIND_CODE: &str =
    "data 4\n1 0000000000000001\n2 0000000000000005\n3 0000000000000007\n5 0000000000000002\ncells 4\n0\n2\n3\n4\nfunctions 2\n00010000 main 0 0\n0001000C work 0 0\nblocks 0\nrows 7\ncall 00010000 0001000C\ncall 00010004 0001000C\nbegin 0001000C 1\nuseat 00010020 1 3\ndefat 00010054 1 3\nend 0001007C 1\nret 00010084\nend\n";

/// The lines of blobs of the operation's first call, where each use was sound, where cell 2 was 9 in place of 7, and where cell 1 was 9 in place of 5.
const SOUND: &str =
    "blob 4f415442010001000102030405060708090a0b0c0d0e0f80308eb0aee555258c531e4f8eb2ebd36ce6df6a8ade2538a11940b1ff0c2bdeb0b1b21de8b0ef63fd973441b29479be85b0efa7883a1769b64091383136b43f00000000000000000031e84d6a42e7eeafd18536204b5a98d2a39ff84220540cc940413e510c092a18\n";

const CELL_2: &str =
    "blob 4f415442010001000102030405060708090a0b0c0d0e0f80308eb0aee555258c531e4f8eb2ebd36ce6df6a8ade2538a11940b1ff0c2bdeb0b1b21de8b0ef63fd973441b29479be85b0efa7883a1769b64091383136b43f0100000002000000000000000700000000000000090000000000000000d0cebeec86bad6dbd793b0370b52652a06429d55d51ab9bc49f11878ad21d019\n";

const CELL_1: &str =
    "blob 4f415442010001000102030405060708090a0b0c0d0e0f80308eb0aee555258c531e4f8eb2ebd36ce6df6a8ade2538a11940b1ff0c2bdeb0b1b21de8b0ef63fd973441b29479be85b0efa7883a1769b64091383136b43f010000000100000000000000050000000000000009000000000000000050260ba7e18673282895406644d0bd76da64a6a57db2d76ff8559a73b83d383b\n";

/// Those of two calls in one session: the first one, the second one where each use was sound, and the second one where cell 3 was 9 in place of 7.
const WINDOW_0: &str =
    "blob 4f41544202000100000000000102030405060708090a0b0c0d0e0f80308eb0aee555258c531e4f8eb2ebd36ce6df6a8ade2538a11940b1ff0c2bde7d08c13be791371c2a29f94f4ba96db275abbd9fd2e734ac156142f18139d4d6000000000000000000212d68b92daf17eb192fb90ea85272f550a61679ee93c4cef0efa6ffabd14470\n";

const WINDOW_1: &str =
    "blob 4f41544202000100000001000102030405060708090a0b0c0d0e0f80308eb0aee555258c531e4f8eb2ebd36ce6df6a8ade2538a11940b1ff0c2bde834c6e19d87bb66abc78912353e6c9bb5062cfd77f9675afe10996c29ff059550000000000000000006b4f4ad9e3d4730581722d6a4a4caa9d29a896f4988bd6d56a740e476aa2df4d\n";

const WINDOW_1_CELL_3: &str =
    "blob 4f41544202000100000001000102030405060708090a0b0c0d0e0f80308eb0aee555258c531e4f8eb2ebd36ce6df6a8ade2538a11940b1ff0c2bde834c6e19d87bb66abc78912353e6c9bb5062cfd77f9675afe10996c29ff0595501000000030000000000000007000000000000000900000000000000000d63d8135350a5e8b5b9fbc227225ef82f3b2266ceb5a2e31120e1544a6f9128\n";

/// Nobody writes; element 1 is written before its load, and behind it; element 0 is used in place of it, and is written; a number that no element has, for the use and for the
/// define, and one that would be 0 if it were multiplied by 8; in two windows, the element that the first one defined is used in the second one, and is written between them.
/// What the case has besides, the run lines, and each blob with the status and the lines of its verdict.
const MEASURED: [(&str, &str, &[(&str, u8, &str)]); 10] = [
    (
        "",
        "out 7\nout 7\nended halted\n",
        &[(SOUND, 0, "accept\nend 1\n")],
    ),
    (
        "write 11 40000018 0900000000000000\n",
        "out 9\nout 9\nended halted\n",
        &[(CELL_2, 1, "refuse critical 2 7 9\n")],
    ),
    (
        "write 12 40000018 0900000000000000\n",
        "out 7\nout 9\nended halted\n",
        &[(SOUND, 0, "accept\nend 1\n")],
    ),
    (
        "write 5 40000008 0000000000000000\n",
        "out 5\nout 5\nended halted\n",
        &[(SOUND, 0, "accept\nend 1\n")],
    ),
    (
        "write 5 40000008 0000000000000000\nwrite 11 40000010 0900000000000000\n",
        "out 9\nout 9\nended halted\n",
        &[(CELL_1, 1, "refuse critical 1 5 9\n")],
    ),
    (
        "write 5 40000008 0300000000000000\n",
        "ended trap Index\n",
        &[],
    ),
    (
        "write 17 40000028 0300000000000000\n",
        "out 7\nended trap Index\n",
        &[],
    ),
    (
        "write 5 40000008 0000000000000020\n",
        "ended trap Index\n",
        &[],
    ),
    (
        "calls 2\nwrite 31 40000008 0200000000000000\n",
        "out 7\nout 7\nended halted\n",
        &[
            (WINDOW_0, 0, "accept 0\nend 1\n"),
            (WINDOW_1, 0, "accept 1\nend 1\n"),
        ],
    ),
    (
        "calls 2\nwrite 31 40000008 0200000000000000\nwrite 31 40000020 0900000000000000\n",
        "out 7\nout 9\nended halted\n",
        &[
            (WINDOW_0, 0, "accept 0\nend 1\n"),
            (WINDOW_1_CELL_3, 1, "refuse critical 3 7 9\n"),
        ],
    ),
];

fn image_text(alloc: Global) -> Result<String, AllocError> {
    let mut text = format!(in alloc; "oat-image 2\ncode {}\n", CODE.len())?;
    for word in CODE {
        text.push_str(format!(in alloc; "{word:08X}\n")?.as_str())?;
    }
    text.push_str(BEHIND_CODE)?;
    Ok(text)
}

/// The image, a case that has some lines besides, and a blob.
fn element_files(alloc: Global, besides: &str, blob: &str) -> Result<Vec<MemoryFile>, AllocError> {
    let mut files = Vec::new(alloc);
    files.push(file(alloc, "E", image_text(alloc)?.as_bytes())?)?;
    let end = format!(in alloc; "100000\n{besides}")?;
    files.push(changed_file(alloc, "K", CASE, ("100000\n", end.as_str()))?)?;
    files.push(file(alloc, "BLOB", blob.as_bytes())?)?;
    Ok(files)
}

/// Makes a call on such files.
fn expect_element(
    rt: &impl Abort,
    alloc: Global,
    line: &str,
    texts: (&str, &str),
    want: (u8, &str, &str),
) -> Result<(), AllocError> {
    let mut files = MemoryFiles::new(element_files(alloc, texts.0, texts.1)?, Vec::new(alloc));
    let sinks = (
        MemorySink::new(64, Vec::new(alloc)),
        MemorySink::new(64, Vec::new(alloc)),
    );
    expect(rt, alloc, line, &mut files, sinks, want)
}

#[test]
fn runs_with_elements_are_measured_and_judged(rt: HostRuntime) -> Result<(), Fail> {
    for (besides, lines, blobs) in MEASURED {
        let mut text = String::from_str(rt.alloc(), lines)?;
        for (blob, status, verdict) in blobs {
            text.push_str(blob)?;
            expect_element(
                &rt,
                rt.alloc(),
                "verify E K BLOB",
                (besides, blob),
                (*status, verdict, ""),
            )?;
        }
        let (status, said) = if blobs.is_empty() {
            (7, "no blob\n")
        } else {
            (0, "")
        };
        expect_element(
            &rt,
            rt.alloc(),
            "device E K",
            (besides, ""),
            (status, text.as_str(), said),
        )?;
    }
    Ok(())
}
