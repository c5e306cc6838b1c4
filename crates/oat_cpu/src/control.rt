// Where an instruction leads.
ghost use Rattle.std.specs.Prelude.{◌≡◌, if◌then◌else◌};
ghost use Rattle.oat_a64.specs.{Regions};
ghost use Rattle.oat_a64.specs.Step.{branch_target, calls_monitor, next_pc, traps, with_reg};
ghost use Rattle.oat_cpu.specs.Processor.{machine_of, effect_of, regs_of};

use crate::cpu::Cpu;
use oat_a64::{Event, FaultKind, branch_target};

impl Cpu {
    pub(crate) fn go_on(&mut self) -> Event
        ensures told { result ≡ Event.Next }
        ensures regs { let r = regs_of self.old in regs_of self.new ≡ record r { pc = next_pc r.pc } }
    {
        self.pc = self.pc.wrapping_add(4);
        Event::Next
    }

    pub(crate) fn jump(&mut self, address: u64) -> Event
        ensures told { result ≡ Event.Next }
        ensures regs { regs_of self.new ≡ record (regs_of self.old) { pc = address } }
    {
        self.pc = address;
        Event::Next
    }

    pub(crate) fn branch_if(&mut self, test: bool, offset: i32) -> Event
        ensures told { result ≡ Event.Next }
        ensures regs { let r = regs_of self.old in regs_of self.new ≡ record r { pc = if test then branch_target r.pc offset else next_pc r.pc } }
    {
        if test {
            self.jump(branch_target(self.pc, offset))
        } else {
            self.go_on()
        }
    }

    // Jumps, with the address of the next instruction in X30.
    pub(crate) fn link(&mut self, address: u64) -> Event
        ensures told { result ≡ Event.Next }
        ensures regs { let r = regs_of self.old in regs_of self.new ≡ record (with_reg r 30 (next_pc r.pc)) { pc = address } }
    {
        self.x[30] = self.pc.wrapping_add(4);
        self.jump(address)
    }

    pub(crate) fn call_monitor(&mut self, number: u16) -> Event
        ensures { (memory : Regions) → effect_of self.new memory result ≡ calls_monitor (machine_of self.old memory) number }
    {
        if number > 9 {
            return Event::Fault(FaultKind::Undefined(self.pc));
        }
        let _next = self.go_on();
        Event::Svc(number)
    }

    pub(crate) fn trap(&self, number: u16) -> Event
        ensures { (memory : Regions) → effect_of self.now memory result ≡ traps (machine_of self.now memory) number }
    {
        if number >= 1 && number <= 4 {
            Event::Brk(number)
        } else {
            Event::Fault(FaultKind::Undefined(self.pc))
        }
    }
}
