// Registers and flags as operands and results.
ghost use Rattle.std.specs.Prelude.{◌≡◌};
ghost use Rattle.oat_a64.specs.{difference};
ghost use Rattle.oat_a64.specs.Step.{holds, next_pc, reg, reg_or_sp, with_flags, with_reg, with_reg_or_sp};
ghost use Rattle.oat_cpu.specs.Processor.{regs_of};

use crate::cpu::Cpu;
use oat_a64::Event;

impl Cpu {
    // Register 31 reads as zero.
    pub(crate) fn reg(&self, register: u8) -> u64
        ensures { result ≡ reg (regs_of self.now) register }
    {
        if register < 31 {
            self.x[register as usize]
        } else {
            0
        }
    }

    // Register 31 is SP.
    pub(crate) fn reg_or_sp(&self, register: u8) -> u64
        ensures { result ≡ reg_or_sp (regs_of self.now) register }
    {
        if register == 31 {
            self.sp
        } else {
            self.reg(register)
        }
    }

    pub(crate) fn holds(&self, condition: u8) -> bool
        ensures { result ≡ holds condition (regs_of self.now) }
    {
        match condition {
            0 => self.z,
            1 => !self.z,
            2 => self.c,
            3 => !self.c,
            8 => self.c && !self.z,
            9 => !self.c || self.z,
            10 => self.n == self.v,
            11 => self.n != self.v,
            12 => !self.z && self.n == self.v,
            13 => self.z || self.n != self.v,
            _ => false,
        }
    }

    // Goes on with a result. A write to register 31 is dropped.
    pub(crate) fn finish(&mut self, register: u8, value: u64) -> Event
        ensures told { result ≡ Event.Next }
        ensures regs { let r = with_reg (regs_of self.old) register value in regs_of self.new ≡ record r { pc = next_pc r.pc } }
    {
        if register < 31 {
            self.x[register as usize] = value;
        }
        self.go_on()
    }

    // Goes on with a result, where register 31 is SP.
    pub(crate) fn finish_or_sp(&mut self, register: u8, value: u64) -> Event
        ensures told { result ≡ Event.Next }
        ensures regs { let r = with_reg_or_sp (regs_of self.old) register value in regs_of self.new ≡ record r { pc = next_pc r.pc } }
    {
        if register == 31 {
            self.sp = value;
        }
        self.finish(register, value)
    }

    // Goes on with a difference and its flags.
    pub(crate) fn subtract(&mut self, register: u8, left: u64, right: u64) -> Event
        ensures told { result ≡ Event.Next }
        ensures regs { let r = with_reg (with_flags (regs_of self.old) left right) register (difference left right) in regs_of self.new ≡ record r { pc = next_pc r.pc } }
    {
        let difference = left.wrapping_sub(right);
        self.n = difference >= 1 << 63;
        self.z = difference == 0;
        self.c = left >= right;
        self.v = left.cast_signed().overflowing_sub(right.cast_signed()).1;
        self.finish(register, difference)
    }
}
