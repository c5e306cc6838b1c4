use crate::faults::said;
use oat_case::read_case;
use std::test::Fail;

const CASE: &[u8] =
    b"; the worked case\r\noat-case 1\r\n\t steps 0100000\r\nwrite 15 4007FFff aB\r\n\nkey 0b0b0b0b0b0b0b0b0b0b0b0b0b0b0b0b0b0b0b0B\ninput -9223372036854775808\r\noperation 1\ncalls 1024\ninput 20\nwrite 15 7ff00000 0001\n;\xff\r\r\nnonce 000102030405060708090a0b0c0d0e0f";

/// Texts that are no case, and their first fault.
const FAULTY: [(&[u8], &[u8]); 13] = [
    (b"", b"1 Missing"),
    (
        b"oat-case 1\nnonce 000102030405060708090a0b0c0d0e0f\nnonce 000102030405060708090a0b0c0d0e0f\n",
        b"3 Twice",
    ),
    (b"oat-case 1\nsteps 999999999999999999999999\n", b"2 Range"),
    (b"oat-case 1\ninput 9223372036854775808\n", b"2 Range"),
    (
        b"oat-case 1\nwrite 20 40000000 00\nwrite 15 40000000 00\n",
        b"3 Order",
    ),
    (b"oat-case 1\nwrite 0 40080000 00\n", b"2 OutsideData"),
    (b"oat-case 1\nwrite 0 00000000040000000 00\n", b"2 Token"),
    (b"; comment\n\noat-case 1\r\n \t;\xff\nkey 0\n", b"5 Token"),
    (b"oat-case 1\ncalls 1025\n", b"2 Range"),
    (b"oat-case 1\ncalls 2\ncalls 0\n", b"3 Twice"),
    (b"oat-case 1\noperation +1\n", b"2 Token"),
    (b"oat-case 1\noat-case 1\n", b"2 Token"),
    (b"oat-case 1\r", b"1 Token"),
];

#[test]
fn cases_are_read_or_refused(rt: HostRuntime) -> Result<(), Fail> {
    let case = read_case(rt.alloc(), CASE).ok().ok_or("no case")?;
    let session = &case.session;
    assert!(rt; session.key.as_slice() == [0x0b; 20].as_slice());
    assert!(rt; session.nonce == [0, 1, 2, 3, 4, 5, 6, 7, 8, 9, 10, 11, 12, 13, 14, 15]);
    assert!(rt; (session.op, session.calls, case.steps) == (1, Some(1024), 100_000));
    assert!(rt; case.inputs.as_slice() == [i64::MIN, 20].as_slice());
    assert!(rt; case.writes.len() == 2 && case.well_formed());
    for (text, fault) in FAULTY {
        assert!(rt; text.len() <= 4_194_304);
        let found = said(rt.alloc(), read_case(rt.alloc(), text).err())?;
        assert!(rt; found.as_bytes() == fault, "{found}");
    }
    Ok(())
}
