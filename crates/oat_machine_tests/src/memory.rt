use oat_mem::{Memory, fits};
use std::alloc::AllocError;

#[test]
fn words_are_read_at_aligned_data_alone(rt: HostRuntime) -> Result<(), AllocError> {
    let mut memory = Memory::zeroed(rt.alloc())?;
    memory.put_word(65_535, 7);
    assert!(rt; memory.write8(0x7FFF_FFF8, 9));
    assert!(rt; !memory.write8(0x8000_0000, 9));
    // two bytes over the end of a word are the highest of it, and the lowest of the next
    let fit = [(0x4000_0002, [1, 2]), (0x4000_0007, [3, 4])];
    for (address, bytes) in fit {
        assert!(rt; fits(address, 2));
        memory.poke(address, &bytes);
    }
    assert!(rt; !fits(0x7FFF_FFFF, 2));
    for (address, want) in [
        (0x4000_0000, Some(0x0300_0000_0201_0000)),
        (0x4000_0008, Some(4)),
        (0x4007_FFF8, Some(7)),
        (0x4007_FFFC, None),
        (0x4008_0000, None),
        (0x7FEF_FFF8, None),
        (0x7FF0_0000, Some(0)),
        (0x7FFF_FFF8, Some(9)),
        (0x7FFF_FFFC, None),
        (0x8000_0000, None),
        (u64::MAX - 7, None),
    ] {
        assert!(rt; memory.read8(address) == want, "at {address:x}");
    }
    Ok(())
}
