// Loads and stores.
ghost use Rattle.std.specs.Prelude.{◌≡◌, ◌+◌, ◌*◌};
ghost use Rattle.oat_a64.specs.{wrap};
ghost use Rattle.oat_a64.specs.Step.{loads, reg, reg_or_sp, stores};
ghost use Rattle.oat_cpu.specs.Processor.{machine_of, effect_of, regs_of};

use crate::cpu::Cpu;
use oat_a64::{Event, FaultKind};
use oat_mem::Memory;

impl Cpu {
    pub(crate) fn load(&mut self, register: u8, address: u64, memory: &Memory) -> Event
        ensures { effect_of self.new memory.now result ≡ loads (machine_of self.old memory.now) register address }
    {
        match memory.read8(address) {
            Some(value) => self.finish(register, value),
            None => Event::Fault(FaultKind::Access(address)),
        }
    }

    pub(crate) fn store(&mut self, register: u8, address: u64, memory: &mut Memory) -> Event
        ensures { effect_of self.new memory.new result ≡ stores (machine_of self.old memory.old) register address }
    {
        if memory.write8(address, self.reg(register)) {
            self.go_on()
        } else {
            Event::Fault(FaultKind::Access(address))
        }
    }

    // The imm counts words of memory.
    pub(crate) fn address(&self, base: u8, imm: u16) -> u64
        ensures { result ≡ wrap (reg_or_sp (regs_of self.now) base + 8 * imm) }
    {
        self.reg_or_sp(base).wrapping_add(8 * u64::from(imm))
    }

    // The register has the number of a word behind the base.
    pub(crate) fn element(&self, base: u8, number: u8) -> u64
        ensures { result ≡ wrap (reg_or_sp (regs_of self.now) base + 8 * reg (regs_of self.now) number) }
    {
        let offset = self.reg(number).wrapping_mul(8);
        self.reg_or_sp(base).wrapping_add(offset)
    }
}
