use crate::faults::said;
use oat_image::worked::ONE_JUMP;
use oat_image::{print_image, read_image};
use std::test::Fail;

/// Texts that are no image, and their first fault.
const FAULTY: [(&[u8], &[u8]); 11] = [
    (b"oat-image 3\n", b"1 Token"),
    (b"oat-image1\n", b"1 Token"),
    (b"oat-image 1\n", b"2 Token"),
    (b"oat-image 1\ncode 06\n", b"2 Number"),
    (b"oat-image 1\ncode -1\n", b"2 Number"),
    (b"oat-image 1\ncode 0\n", b"2 Limit"),
    (b"oat-image 1\ncode 131073\n", b"2 Limit"),
    (b"oat-image 1\ncode 6\nd2800029\n", b"3 Number"),
    (b"oat-image 1\ncode 1\n\n", b"3 Token"),
    (
        b"oat-image 1\ncode 1\nD2800029\ndata 1\n0 0000000000000000\n",
        b"5 Number",
    ),
    (
        b"oat-image 1\ncode 1\nD2800029\ndata 2\n1 0000000000000001\n1 0000000000000001\n",
        b"6 Order",
    ),
];

/// Versions and rows of an image with one row, and the first fault of its text, where it has one.
const ROWS: [(u8, &str, &[u8]); 11] = [
    (1, "useat 00010000 0 1", b"9 Token"),
    (1, "defat 00010000 0 0", b"9 Token"),
    (2, "use 00010000 0", b"10 Token"),
    (2, "useat 00010000 65536", b"9 Token"),
    (2, "useat 00010000 0 1 1", b"9 Token"),
    (2, "useat 00010000 65536 1", b"9 Number"),
    (2, "useat 00010000 0 0", b"9 Number"),
    (2, "useat 00010000 0 4097", b"9 Number"),
    (2, "defat 00010000 0 04", b"9 Number"),
    (2, "useat 00010000 65535 4096", b""),
    (2, "defat 00010000 0 1", b""),
];

#[test]
fn faulty_texts_are_refused(rt: HostRuntime) -> Result<(), Fail> {
    for (text, fault) in FAULTY {
        assert!(rt; text.len() <= 16_777_216);
        let found = said(rt.alloc(), read_image(rt.alloc(), text).err())?;
        assert!(rt; found.as_bytes() == fault, "{found}");
    }
    // its last line is cut
    let cut = ONE_JUMP.as_bytes().get(..203).unwrap_or(&[]);
    assert!(rt; cut.len() <= 16_777_216);
    let found = said(rt.alloc(), read_image(rt.alloc(), cut).err())?;
    assert!(rt; found.as_bytes() == b"19 Token".as_slice());
    Ok(())
}

#[test]
fn texts_of_one_row_are_printed_as_they_were_read(rt: HostRuntime) -> Result<(), Fail> {
    for (version, row, fault) in ROWS {
        let text = format!(in rt.alloc();
            "oat-image {version}\ncode 1\nD2800029\ndata 0\ncells 0\nfunctions 0\nblocks 0\nrows 1\n{row}\nend\n"
        )?;
        assert!(rt; text.len() <= 16_777_216);
        let read = read_image(rt.alloc(), text.as_bytes());
        if let Ok(image) = &read {
            assert!(rt; print_image(rt.alloc(), image)?.as_slice() == text.as_bytes());
        }
        let found = said(rt.alloc(), read.err())?;
        assert!(rt; found.as_bytes() == fault, "{found}");
    }
    Ok(())
}
