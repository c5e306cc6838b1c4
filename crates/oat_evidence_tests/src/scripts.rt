use crate::faults::said;
use oat_script::read_script;
use std::test::Fail;

/// Texts that are no script, and their first fault.
const FAULTY: [(&[u8], &[u8]); 18] = [
    (b"", b"1 Order"),
    (b"\n", b"2 Order"),
    (b"answer 00\ndevice 1 A 00", b"1 Order"),
    (b"device 1 A 00\nanswer 00\ndevice 2 A 00", b"3 Order"),
    (b"device 1 A 00\nanswer 00\ndevice 1 A 00", b"3 Twice"),
    (b"device 1 A 00\nanswer", b"2 Token"),
    (b"device 1 A 00\nanswer 0", b"2 Token"),
    (b"device 1 A 00\nanswer 00 00", b"2 Token"),
    (b"device 1 A\n", b"1 Token"),
    (b"devices 1 A 00", b"1 Token"),
    (b"device -1 A 00", b"1 Token"),
    (b"device 99999999999 A 0g", b"1 Token"),
    (b"device 1 \x7f 00", b"1 Token"),
    (b"device 4294967296 A 00", b"1 Number"),
    (
        b"device 1 A 00\nchallenge 1 0 000102030405060708090a0b0c0d0e0f",
        b"2 Number",
    ),
    (
        b"device 1 A 00\nchallenge 1 65536 000102030405060708090a0b0c0d0e0f",
        b"2 Number",
    ),
    (
        b"device 1 A 00\nchallenge 1 1 000102030405060708090a0b0c0d0e",
        b"2 Number",
    ),
    (b"challenge 1 0 00", b"1 Number"),
];

#[test]
fn faulty_scripts_are_refused(rt: HostRuntime) -> Result<(), Fail> {
    for (text, fault) in FAULTY {
        assert!(rt; text.len() <= 67_108_864);
        let found = said(rt.alloc(), read_script(rt.alloc(), text).err())?;
        assert!(rt; found.as_bytes() == fault, "{found}");
    }
    Ok(())
}
