use oat_text::{print_program, read_program};
use std::test::Fail;

const IDLE: &[u8] =
    b"operation 1 idle\nlocal z i64\nblock b0\nret z\nend\nmain\nlocal s i64\nblock b0\ncall s idle\nhalt\nend\n";

/// A text with other line ends, a comment and spaces, and no LF at its end, and the one that is printed of its program.
const LOOSE: &[u8] = b"\t;x\r\nmain\r\nblock b0\r\nhalt\r\n end";

const PLAIN: &[u8] = b"main\nblock b0\nhalt\nend\n";

#[test]
fn programs_are_printed_as_they_were_read(rt: HostRuntime) -> Result<(), Fail> {
    for (text, printed) in [(IDLE, IDLE), (LOOSE, PLAIN)] {
        assert!(rt; text.len() <= 1_048_576);
        let program = read_program(rt.alloc(), text).ok().ok_or("no program")?;
        assert!(rt; program.well_formed());
        assert!(rt; print_program(rt.alloc(), &program)?.as_slice() == printed);
    }
    Ok(())
}

/// What each text is refused for, and at which line. Of each kind of fault there is one at its first place and one at its last.
const FAULTY: [(&[u8], &[u8]); 34] = [
    (b"global 9x 1", b"1 Token"),
    (b"local 9x i64", b"1 Token"),
    (b"globl x 1", b"1 Expected"),
    (b"func f a:i64 b:i64 c:i64 d:i64 9", b"1 Expected"),
    (b"global x 9223372036854775808", b"1 Number"),
    (b"global x -9223372036854775809", b"1 Number"),
    (b"array a 0", b"1 Number"),
    (b"array a 65537", b"1 Number"),
    (b"criticals a 4097", b"1 Number"),
    (b"operation 0 f", b"1 Number"),
    (b"operation 65536 f", b"1 Number"),
    (b"global x fn/5", b"1 Token"),
    (b"func f a:i64 a:fn/4", b"1 Duplicate"),
    (b"global x 1\nglobal x 1", b"2 Duplicate"),
    (b"\n\r\n \t;\xff\nglobl x 1", b"4 Expected"),
    (b"main\nblock b0\njump c\nend", b"3 Unknown"),
    (b"main\nblock b0\njump c\nend\nend", b"5 Expected"),
    (b"main\nblock b0\nhalt\nend\nmain 9", b"5 Expected"),
    (b"main\nblock b0\nhalt\nend\nfunc 9", b"5 Token"),
    (b"main\nblock b0\nhalt\nend\nmain", b"5 Duplicate"),
    (b"main\nblock b0\nhalt\nend\noperation f f", b"5 Number"),
    (b"main\nblock b0\nhalt\nend\nglobal x 1", b"5 Expected"),
    (
        b"operation 1 f\nblock b\nhalt\nend\noperation 01 g",
        b"5 Duplicate",
    ),
    (
        b"main\nblock b0\nhalt\nend\nfunc f\nblock b0\nret x\nend",
        b"7 Unknown",
    ),
    (b"main\nblock b0\nhalt\nblock b0\nhalt\nend", b"4 Duplicate"),
    (b"main\nblock b0\nhalt\n", b"4 Expected"),
    (b"main", b"2 Expected"),
    (b"main\nend", b"2 Expected"),
    (b"\0", b"1 Token"),
    (b"global x\0 1", b"1 Token"),
    (b"global x\x7f 1", b"1 Token"),
    (b"\nglobal \xc3\xa9 1", b"2 Token"),
    (b"global x 1\rglobal y 1\n", b"1 Token"),
    (b"global x 1\r\r\n", b"1 Token"),
];

#[test]
fn faulty_texts_are_refused(rt: HostRuntime) -> Result<(), Fail> {
    for (text, wanted) in FAULTY {
        assert!(rt; text.len() <= 1_048_576);
        let fault = read_program(rt.alloc(), text).err().ok_or("a program")?;
        let found = format!(in rt.alloc(); "{fault}")?;
        assert!(rt; found.as_bytes() == wanted, "{found}");
    }
    Ok(())
}
