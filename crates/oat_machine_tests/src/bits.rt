use oat_bits::{BitsFault, Field, PackedBits};
use oat_steps::Steps;
use std::marker::Brand;
use std::mem::size_of;
use std::test::Fail;

// 1011 1011, 100 and five bits of filling.
const BITS: [bool; 11] = [
    true, false, true, true, true, false, true, true, true, false, false,
];

#[test]
fn fields_and_bits_of_worked_words(rt: HostRuntime) -> Result<(), Fail> {
    // RET of X30 has Rn in bits 5 to 9, and MOVK of the third quarter has hw in bits 21 and 22.
    let words = [
        Field::<5, 5>::get(0xD65F_03C0),
        Field::<5, 5>::put(0xD65F_0000, 30),
        Field::<21, 2>::get(0xF2C0_0000),
        Field::<21, 2>::put(0xF2E0_0000, 0),
        Field::<0, 32>::put(0xFFFF_FFFF, 0),
        Field::<0, 32>::get(0xFFFF_FFFF),
    ];
    assert!(rt; words == [30, 0xD65F_03C0, 2, 0xF280_0000, 0, 0xFFFF_FFFF]);
    let mut bits = PackedBits::with_room(rt.alloc(), 11)?;
    for bit in BITS {
        if bits.spare() > 0 {
            bits.push(bit);
        }
    }
    assert!(rt; bits.bytes() == [0xBB, 0x80].as_slice());
    for (bytes, refused) in [
        ([0xBB, 0x80].as_slice(), b"taken".as_slice()),
        ([0xBB, 0x81].as_slice(), b"padding".as_slice()),
        ([0xBB].as_slice(), b"length".as_slice()),
        ([0xBB, 0x80, 0x00].as_slice(), b"length".as_slice()),
    ] {
        let found = match PackedBits::from_packed(rt.alloc(), bytes, 11).err() {
            None => b"taken".as_slice(),
            Some(BitsFault::Padding) => b"padding".as_slice(),
            Some(BitsFault::Length) => b"length".as_slice(),
            Some(BitsFault::Memory) => b"memory".as_slice(),
        };
        assert!(rt; found == refused, "{bytes:?}");
    }
    assert!(rt; size_of::<Steps<Brand>>() == 0);
    Ok(())
}
