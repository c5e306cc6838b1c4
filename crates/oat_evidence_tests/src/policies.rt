use crate::faults::said;
use oat_image::read_image;
use oat_image::worked::CALLS;
use oat_policy::{Edge, PolicyVerdict, read_policy, verdict_on};
use std::test::Fail;

/// The path of the worked operation, whose indirect call goes to the first address and comes back from the other.
fn path_by(target: u64, back: u64) -> [Edge; 9] {
    [
        Edge::Call {
            from: 0x10018,
            to: 0x10084,
        },
        Edge::Ret {
            from: 0x10094,
            to: 0x1001C,
        },
        Edge::Call {
            from: 0x1001C,
            to: 0x10084,
        },
        Edge::Ret {
            from: 0x10094,
            to: 0x10020,
        },
        Edge::ICall {
            from: 0x10034,
            to: target,
        },
        Edge::Ret {
            from: back,
            to: 0x1003C,
        },
        Edge::Branch {
            from: 0x10058,
            bit: true,
            to: 0x10064,
        },
        Edge::Jump {
            from: 0x10068,
            to: 0x1006C,
        },
        Edge::End { op: 2 },
    ]
}

const UP: (u64, u64) = (0x1009C, 0x100A0);

const DOWN: (u64, u64) = (0x100A8, 0x100AC);

/// Policies, and the line and place of the rule that a path breaks; none where all hold.
const JUDGED: [(&[u8], (u64, u64), Option<(u32, u64)>); 8] = [
    (b"", UP, None),
    (
        b"never icall:*:down\nbefore call:*:helper icall:*:*\n",
        UP,
        None,
    ),
    (b"most 1 call:*:helper", UP, Some((1, 3))),
    (b"order icall:*:up call:*:helper", UP, Some((1, 10))),
    (b"never icall:*:down", DOWN, Some((1, 5))),
    (
        b"order call:work#0:* call:work#1:* ret:down#0:work#2 branch:*:1:work.yes jump:work.yes#0:work.done end:2",
        DOWN,
        None,
    ),
    (
        b"; helpers\r\n\n\tbefore *:*:helper call:work#0:helper",
        UP,
        Some((3, 1)),
    ),
    (
        b"most 0 end:2\nnever stray:*:*\nnever jump:*:*",
        UP,
        Some((1, 9)),
    ),
];

#[test]
fn the_first_broken_rule_is_told(rt: HostRuntime) -> Result<(), Fail> {
    let text = CALLS.as_bytes();
    assert!(rt; text.len() <= 16_777_216);
    let image = read_image(rt.alloc(), text).ok().ok_or("no image")?;
    for (text, (target, back), broken) in JUDGED {
        assert!(rt; text.len() <= 65_536);
        let policy = read_policy(rt.alloc(), text).ok().ok_or("no policy")?;
        let path = path_by(target, back);
        let found = match verdict_on(rt.alloc(), &policy, &image.map, &path)? {
            PolicyVerdict::Holds => None,
            PolicyVerdict::Breaks { line, place } => Some((line, place)),
        };
        assert!(rt; found == broken, "{text:?}");
    }
    Ok(())
}

/// Texts that are no policy, and their first fault.
const FAULTY: [(&[u8], &[u8]); 9] = [
    (b"never call", b"1 Token"),
    (b"never a:b:c:d:e", b"1 Token"),
    (b"never a::c", b"1 Token"),
    (b"; x\n\nbefore a:b", b"3 Token"),
    (b"order\n", b"1 Token"),
    (
        b"order a:a a:a a:a a:a a:a a:a a:a a:a a:a a:a a:a a:a a:a a:a a:a a:a a:a",
        b"1 Token",
    ),
    (b"most x a", b"1 Token"),
    (b"most x a:b", b"1 Number"),
    (b"most 4194305 a:b", b"1 Number"),
];

#[test]
fn faulty_policies_are_refused(rt: HostRuntime) -> Result<(), Fail> {
    for (text, fault) in FAULTY {
        assert!(rt; text.len() <= 65_536);
        let found = said(rt.alloc(), read_policy(rt.alloc(), text).err())?;
        assert!(rt; found.as_bytes() == fault, "{found}");
    }
    let mut text = Vec::new(rt.alloc());
    for _ in 0..64 {
        text.extend_from_slice(b"never a:b\n")?;
    }
    for (rest, fault) in [
        (b"".as_slice(), b"".as_slice()),
        (b"x".as_slice(), b"65 TooMany".as_slice()),
    ] {
        text.extend_from_slice(rest)?;
        assert!(rt; text.len() <= 65_536);
        let found = said(rt.alloc(), read_policy(rt.alloc(), text.as_slice()).err())?;
        assert!(rt; found.as_bytes() == fault, "{found}");
    }
    Ok(())
}
