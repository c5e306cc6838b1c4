use oat_image::{Function, Name, Row};
use oat_policy::{Listed, Map};
use std::test::Fail;

const NAMES: [(&[u8], bool); 6] = [
    (b"main", true),
    (b"_h15", true),
    (b"abcdefghijklmnopqrstuvwxyz_ABCDE", true),
    (b"abcdefghijklmnopqrstuvwxyz_ABCDEF", false),
    (b"9x", false),
    (b"", false),
];

const ROWS: [Row; 3] = [
    Row::Begin { at: 0x10000, op: 1 },
    Row::UseCell {
        at: 0x10008,
        cell: 0,
    },
    Row::End { at: 0x1001C, op: 1 },
];

/// Entries, parameters, and whether they are referenced.
const FUNCTIONS: [(u64, u8, bool); 3] = [
    (0x10008, 1, true),
    (0x10084, 0, false),
    (0x10000, 1, true),
];

/// Parameters of an indirect call and its target, and whether it may lead there.
const CALLS: [(u8, u64, bool); 5] = [
    (1, 0x10008, true),
    (0, 0x10008, false),
    (0, 0x10084, false),
    (1, 0x10000, true),
    (1, 0x1000C, false),
];

#[test]
fn names_rows_and_targets(rt: HostRuntime) -> Result<(), Fail> {
    for (text, named) in NAMES {
        assert!(rt; Name::new(text).is_some() == named);
    }
    let mut functions = Vec::new(rt.alloc());
    for (entry, params, referenced) in FUNCTIONS {
        functions.push(Function {
            entry,
            name: Name::new(b"called").ok_or("no name")?,
            params,
            referenced,
        })?;
    }
    let map = Map {
        functions: Listed::from_vec(functions),
        blocks: Listed::from_vec(Vec::new(rt.alloc())),
        rows: Listed::from_vec(Vec::from_slice(rt.alloc(), &ROWS)?),
    };
    assert!(rt; map.ordered());
    assert!(rt; (map.start(1), map.start(2)) == (Some(0x10008), None));
    for (place, row) in [(0x10008, Some(1)), (0x10009, Some(2)), (0x1001D, None)] {
        assert!(rt; map.next_row(place) == row);
    }
    for (params, target, allowed) in CALLS {
        assert!(rt; map.is_indirect_target(params, target) == allowed);
    }
    Ok(())
}
