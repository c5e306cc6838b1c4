// Sums and products of operands, and the choice between two.
ghost use Rattle.std.specs.Prelude.{◌≡◌, ◌+◌, if◌then◌else◌};
ghost use Rattle.oat_a64.specs.{wrap, Regions};
ghost use Rattle.oat_a64.specs.declared.inst.Inst.TheVariants.{AddImm, SubImm, AddReg, Madd, Msub};
ghost use Rattle.oat_a64.specs.Step.{act, holds, reg};
ghost use Rattle.oat_cpu.specs.Processor.{machine_of, effect_of, regs_of};

use crate::cpu::Cpu;
use crate::value::shift_left;
use oat_a64::Event;

impl Cpu {
    pub(crate) fn add_number(&mut self, rd: u8, rn: u8, imm: u16) -> Event
        ensures { (memory : Regions) → effect_of self.new memory result ≡ act (AddImm rd rn imm) (machine_of self.old memory) }
    {
        self.finish_or_sp(rd, self.reg_or_sp(rn).wrapping_add(u64::from(imm)))
    }

    pub(crate) fn subtract_number(&mut self, rd: u8, rn: u8, imm: u16) -> Event
        ensures { (memory : Regions) → effect_of self.new memory result ≡ act (SubImm rd rn imm) (machine_of self.old memory) }
    {
        self.finish_or_sp(rd, self.reg_or_sp(rn).wrapping_sub(u64::from(imm)))
    }

    pub(crate) fn add_shifted(&mut self, rd: u8, rn: u8, rm: u8, amount: u8) -> Event
        ensures { (memory : Regions) → effect_of self.new memory result ≡ act (AddReg rd rn rm amount) (machine_of self.old memory) }
    {
        let right = shift_left(self.reg(rm), u32::from(amount));
        self.finish(rd, self.reg(rn).wrapping_add(right))
    }

    pub(crate) fn add_product(&mut self, rd: u8, rn: u8, rm: u8, ra: u8) -> Event
        ensures { (memory : Regions) → effect_of self.new memory result ≡ act (Madd rd rn rm ra) (machine_of self.old memory) }
    {
        let product = self.reg(rn).wrapping_mul(self.reg(rm));
        self.finish(rd, self.reg(ra).wrapping_add(product))
    }

    pub(crate) fn subtract_product(&mut self, rd: u8, rn: u8, rm: u8, ra: u8) -> Event
        ensures { (memory : Regions) → effect_of self.new memory result ≡ act (Msub rd rn rm ra) (machine_of self.old memory) }
    {
        let product = self.reg(rn).wrapping_mul(self.reg(rm));
        self.finish(rd, self.reg(ra).wrapping_sub(product))
    }

    // The first register where the condition holds, and else the second and one.
    pub(crate) fn chosen(&self, rn: u8, rm: u8, condition: u8) -> u64
        ensures { let r = regs_of self.now in result ≡ if holds condition r then reg r rn else wrap (reg r rm + 1) }
    {
        if self.holds(condition) {
            self.reg(rn)
        } else {
            self.reg(rm).wrapping_add(1)
        }
    }
}
