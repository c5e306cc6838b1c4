ghost use Rattle.std.specs.Prelude.{◌≡◌, ◌≤◌, length};

use oat_a64::{CODE_BASE, Event, FaultKind, decode, word_at};
use oat_mem::Memory;

/// The state of the processor: X0 to X30, SP, PC and the condition flags.
#[derive(Clone, Copy)]
pub struct Cpu {
    pub x: [u64; 31],
    pub sp: u64,
    pub pc: u64,
    pub n: bool,
    pub z: bool,
    pub c: bool,
    pub v: bool,
}

impl Cpu {
    ghost use Rattle.oat_a64.specs.Step.{first_regs, step};
    ghost use Rattle.oat_cpu.specs.Processor.{machine_of, effect_of, regs_of};

    /// The state at the start of a run.
    pub fn start() -> Self
        ensures { regs_of result ≡ first_regs }
    {
        Cpu {
            x: [0; 31],
            sp: 0x8000_0000,
            pc: CODE_BASE,
            n: false,
            z: false,
            c: false,
            v: false,
        }
    }

    /// Makes the instruction at PC. After a trap or a fault nothing has changed.
    #[tactic(auto, unfolding(oat_a64::specs::Step::step))]
    pub fn step(&mut self, code: &[u32], memory: &mut Memory) -> Event
        ensures { effect_of self.new memory.new result ≡ step code.now (machine_of self.old memory.old) }
    {
        let Some(word) = word_at(code, self.pc) else {
            return Event::Fault(FaultKind::Fetch(self.pc));
        };
        match decode(word) {
            Some(inst) => self.act(inst, memory),
            None => Event::Fault(FaultKind::Undefined(self.pc)),
        }
    }
}
