use oat_blob::decode;
use oat_image::Row;
use oat_policy::{Listed, Map};
use oat_replay::{ReplayCause, WalkFault, walk};
use std::test::Fail;

/// What no image with the shape gets stuck at.
fn word(fault: &WalkFault) -> &'static [u8] {
    match fault {
        WalkFault::Stuck {
            cause: ReplayCause::Underflow,
            turn: 1,
        } => b"Underflow",
        WalkFault::Stuck {
            cause: ReplayCause::Nested,
            turn: 1,
        } => b"Nested",
        WalkFault::Stuck {
            cause: ReplayCause::WrongEnd,
            turn: 1,
        } => b"WrongEnd",
        WalkFault::Stuck {
            cause: ReplayCause::OffCode,
            turn: 2,
        } => b"OffCode",
        WalkFault::Stuck {
            cause: ReplayCause::EndInside,
            turn: 2,
        } => b"EndInside",
        _ => b"another",
    }
}

/// The rows behind the begin of an operation, and why its walk gets stuck.
const STUCK: [(&[Row], &[u8]); 5] = [
    (&[Row::Ret { at: 0x10008 }], b"Underflow"),
    (&[Row::Begin { at: 0x10008, op: 2 }], b"Nested"),
    (&[Row::End { at: 0x10008, op: 2 }], b"WrongEnd"),
    (
        &[Row::Call {
            at: 0x10008,
            to: 0x10010,
        }],
        b"OffCode",
    ),
    (
        &[
            Row::Call {
                at: 0x10008,
                to: 0x1000C,
            },
            Row::End { at: 0x1000C, op: 1 },
        ],
        b"EndInside",
    ),
];

#[test]
fn walks_get_stuck(rt: HostRuntime) -> Result<(), Fail> {
    let mut bytes = [0; 128];
    bytes[..5].copy_from_slice(b"OATB\x01");
    let nothing = decode(&bytes).ok().ok_or("no blob")?;
    for (behind, want) in STUCK {
        let mut rows = Vec::new(rt.alloc());
        rows.push(Row::Begin { at: 0x10000, op: 1 })?;
        rows.extend_from_slice(behind)?;
        let map = Map {
            functions: Listed::from_vec(Vec::new(rt.alloc())),
            blocks: Listed::from_vec(Vec::new(rt.alloc())),
            rows: Listed::from_vec(rows),
        };
        assert!(rt; map.ordered());
        assert!(rt; map.start(1).is_some());
        let fault = walk(rt.alloc(), &map, 1, &nothing).err().ok_or("a path")?;
        assert!(rt; word(&fault) == want);
    }
    Ok(())
}
