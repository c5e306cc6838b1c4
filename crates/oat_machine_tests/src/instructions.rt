use oat_cpu::{Cpu, Event, FaultKind};
use oat_mem::Memory;
use std::alloc::AllocError;

const LEAST: u64 = 1 << 63;

const START: u64 = 0x1_0000;

const NEXT: u64 = START + 4;

const STACK: u64 = 0x8000_0000;

const LAST: u64 = STACK - 8;

/// An event as a letter with a number: n, the next instruction; s, a service; b, a break; a, f and u, faults of access, fetch and word.
type Told = (u8, u64);

const GOES_ON: Told = (b'n', 0);

const UNDEFINED: Told = (b'u', START);

fn told(event: Event) -> Told {
    match event {
        Event::Next => GOES_ON,
        Event::Svc(number) => (b's', u64::from(number)),
        Event::Brk(number) => (b'b', u64::from(number)),
        Event::Fault(FaultKind::Undefined(address)) => (b'u', address),
        Event::Fault(FaultKind::Access(address)) => (b'a', address),
        Event::Fault(FaultKind::Fetch(address)) => (b'f', address),
    }
}

// N, Z, C and V as the bits of a number, N the highest.
fn flags_of(cpu: &Cpu) -> u8 {
    u8::from(cpu.n) * 8 + u8::from(cpu.z) * 4 + u8::from(cpu.c) * 2 + u8::from(cpu.v)
}

/// A word, X1 to X3, and X0, the flags and the last word of the stack after it, which has 9 before.
const VALUES: [(u32, [u64; 3], u64, u8, u64); 34] = [
    (0x9100_0420, [7, 0, 0], 8, 0, 9), // ADD X0, X1, #1
    (0xEB02_0020, [0, 1, 0], u64::MAX, 8, 9), // SUBS X0, X1, X2
    (0xEB02_0020, [LEAST, 1, 0], LEAST - 1, 3, 9),
    (0xEB02_0020, [7, 7, 0], 0, 6, 9),
    (0xF100_0420, [0, 7, 0], u64::MAX, 8, 9), // SUBS X0, X1, #1
    (0x8B02_0C20, [1, 2, 0], 17, 0, 9), // ADD X0, X1, X2, LSL #3
    (0x8A02_0020, [12, 10, 0], 8, 0, 9), // AND X0, X1, X2
    (0xAA02_0020, [12, 10, 0], 14, 0, 9), // ORR X0, X1, X2
    (0xCA02_0020, [12, 10, 0], 6, 0, 9), // EOR X0, X1, X2
    (0x9B02_0C20, [5, 6, 7], 37, 0, 9), // MADD X0, X1, X2, X3
    (0x9B02_8C20, [5, 6, 37], 7, 0, 9), // MSUB X0, X1, X2, X3
    (0x9AC2_0C20, [LEAST, u64::MAX, 0], LEAST, 0, 9), // SDIV X0, X1, X2
    (0x9AC2_0C20, [7, u64::MAX - 1, 0], u64::MAX - 2, 0, 9),
    (0x9AC2_0820, [5, 0, 0], 0, 0, 9), // UDIV X0, X1, X2
    (0x9AC2_2020, [5, 64, 0], 5, 0, 9), // LSLV X0, X1, X2
    (0x9AC2_2020, [5, 65, 0], 10, 0, 9),
    (0x9AC2_2420, [LEAST, 63, 0], 1, 0, 9), // LSRV X0, X1, X2
    (0x9AC2_2820, [LEAST, 63, 0], u64::MAX, 0, 9), // ASRV X0, X1, X2
    (0xF2E0_0020, [0, 0, 0], 1 << 48, 0, 9), // MOVK X0, #1, LSL #48
    (0x9A82_0420, [5, 6, 0], 7, 0, 9), // CSINC X0, X1, X2, EQ
    (0xF940_0020, [LAST, 0, 0], 9, 0, 9), // LDR X0, [X1]
    (0xF862_7820, [LAST - 16, 2, 0], 9, 0, 9), // LDR X0, [X1, X2, LSL #3]
    (0xF862_7820, [STACK, u64::MAX, 0], 9, 0, 9),
    (0xF862_7820, [LAST - 8, LEAST / 4 + 1, 0], 9, 0, 9),
    (0xF87F_7820, [LAST, 0, 0], 9, 0, 9), // LDR X0, [X1, XZR, LSL #3]
    (0xF862_7BE0, [0, u64::MAX, 0], 9, 0, 9), // LDR X0, [SP, X2, LSL #3]
    (0xF862_783F, [LAST, 0, 0], 0, 0, 9), // LDR XZR, [X1, X2, LSL #3]
    (0xF900_0023, [LAST, 0, 4], 0, 0, 4), // STR X3, [X1]
    (0xF822_7823, [LAST - 16, 2, 5], 0, 0, 5), // STR X3, [X1, X2, LSL #3]
    (0xF822_7823, [STACK, u64::MAX, 6], 0, 0, 6),
    (0xF822_7823, [LAST - 16, 1, 7], 0, 0, 9),
    (0xF83F_7823, [LAST, 0, 8], 0, 0, 8), // STR X3, [X1, XZR, LSL #3]
    (0xF822_7BE3, [0, u64::MAX, 6], 0, 0, 6), // STR X3, [SP, X2, LSL #3]
    (0xF822_783F, [LAST, 0, 0], 0, 0, 0), // STR XZR, [X1, X2, LSL #3]
];

#[test]
fn words_do_what_the_manual_says(rt: HostRuntime) -> Result<(), AllocError> {
    let mut memory = Memory::zeroed(rt.alloc())?;
    for (word, x, x0, flags, stored) in VALUES {
        assert!(rt; memory.write8(LAST, 9));
        let mut cpu = Cpu::start();
        [cpu.x[1], cpu.x[2], cpu.x[3]] = x;
        assert!(rt; told(cpu.step(&[word], &mut memory)) == GOES_ON, "{word:x}");
        let found = (cpu.pc, cpu.x[0], flags_of(&cpu), memory.read8(LAST));
        assert!(rt; found == (NEXT, x0, flags, Some(stored)), "{word:x}");
    }
    Ok(())
}

/// A word, the event, and PC, SP and X30 after it.
const PLACES: [(u32, Told, (u64, u64, u64)); 12] = [
    (0xD400_0121, (b's', 9), (NEXT, STACK, 0)), // SVC #9
    (0xD400_0141, UNDEFINED, (START, STACK, 0)), // SVC #10
    (0xD420_0080, (b'b', 4), (START, STACK, 0)), // BRK #4
    (0xD420_0000, UNDEFINED, (START, STACK, 0)), // BRK #0
    (0xD65F_03C1, UNDEFINED, (START, STACK, 0)), // RET X30 with a bit in a fixed place
    (0xF862_6820, UNDEFINED, (START, STACK, 0)), // LDR X0, [X1, X2]
    (0xF862_F820, UNDEFINED, (START, STACK, 0)), // LDR X0, [X1, X2, SXTX #3]
    (0xF862_7BE0, (b'a', STACK), (START, STACK, 0)), // LDR X0, [SP, X2, LSL #3]
    (0xF822_7820, (b'a', 0), (START, STACK, 0)), // STR X0, [X1, X2, LSL #3]
    (0xD100_43FF, GOES_ON, (NEXT, STACK - 16, 0)), // SUB SP, SP, #16
    (0xCB01_03FF, GOES_ON, (NEXT, STACK, 0)), // SUB XZR, XZR, X1
    (0x97FF_FFFF, GOES_ON, (START - 4, STACK, NEXT)), // BL, one word back
];

#[test]
fn words_lead_where_the_manual_says(rt: HostRuntime) -> Result<(), AllocError> {
    let mut memory = Memory::zeroed(rt.alloc())?;
    for (word, event, after) in PLACES {
        let mut cpu = Cpu::start();
        assert!(rt; told(cpu.step(&[word], &mut memory)) == event, "{word:x}");
        assert!(rt; (cpu.pc, cpu.sp, cpu.x[30]) == after, "{word:x}");
    }
    Ok(())
}

/// Bit s of the mask tells the condition under the flags s.
const CONDITIONS: [(u32, u32); 10] = [
    (0, 0xF0F0),
    (1, 0x0F0F),
    (2, 0xCCCC),
    (3, 0x3333),
    (8, 0x0C0C),
    (9, 0xF3F3),
    (10, 0xAA55),
    (11, 0x55AA),
    (12, 0x0A05),
    (13, 0xF5FA),
];

#[test]
fn conditions_hold_as_the_manual_says(rt: HostRuntime) -> Result<(), AllocError> {
    let mut memory = Memory::zeroed(rt.alloc())?;
    for (condition, mask) in CONDITIONS {
        for flags in 0..16u32 {
            let mut cpu = Cpu::start();
            cpu.n = flags & 8 != 0;
            cpu.z = flags & 4 != 0;
            cpu.c = flags & 2 != 0;
            cpu.v = flags & 1 != 0;
            let _next = cpu.step(&[0x5400_0040 | condition], &mut memory); // B.cond, two words on
            let taken = mask >> flags & 1 == 1;
            assert!(rt; (cpu.pc == START + 8) == taken, "{condition} under {flags}");
        }
    }
    Ok(())
}
