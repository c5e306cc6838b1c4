// What each instruction does, one row for each form.
ghost use Rattle.std.specs.Prelude.{◌≡◌};
ghost use Rattle.oat_a64.specs.Step.{act};
ghost use Rattle.oat_cpu.specs.Processor.{machine_of, effect_of};

use crate::cpu::Cpu;
use crate::value::{divide, divide_signed, put_quarter, quarter, shift_signed};
use oat_a64::{Event, Inst, branch_target};
use oat_mem::Memory;

impl Cpu {
    pub(crate) fn act(&mut self, inst: Inst, memory: &mut Memory) -> Event
        ensures { effect_of self.new memory.new result ≡ act inst (machine_of self.old memory.old) }
    {
        match inst {
            Inst::AddImm { rd, rn, imm } => self.add_number(rd, rn, imm),
            Inst::SubImm { rd, rn, imm } => self.subtract_number(rd, rn, imm),
            Inst::SubsImm { rd, rn, imm } => self.subtract(rd, self.reg_or_sp(rn), u64::from(imm)),
            Inst::AddReg { rd, rn, rm, amount } => self.add_shifted(rd, rn, rm, amount),
            Inst::SubReg { rd, rn, rm } => self.finish(rd, self.reg(rn).wrapping_sub(self.reg(rm))),
            Inst::SubsReg { rd, rn, rm } => self.subtract(rd, self.reg(rn), self.reg(rm)),
            Inst::AndReg { rd, rn, rm } => self.finish(rd, self.reg(rn) & self.reg(rm)),
            Inst::OrrReg { rd, rn, rm } => self.finish(rd, self.reg(rn) | self.reg(rm)),
            Inst::EorReg { rd, rn, rm } => self.finish(rd, self.reg(rn) ^ self.reg(rm)),
            Inst::Madd { rd, rn, rm, ra } => self.add_product(rd, rn, rm, ra),
            Inst::Msub { rd, rn, rm, ra } => self.subtract_product(rd, rn, rm, ra),
            Inst::Udiv { rd, rn, rm } => self.finish(rd, divide(self.reg(rn), self.reg(rm))),
            Inst::Sdiv { rd, rn, rm } => self.finish(rd, divide_signed(self.reg(rn), self.reg(rm))),
            Inst::Lslv { rd, rn, rm } => self.finish(rd, self.reg(rn) << (self.reg(rm) % 64)),
            Inst::Lsrv { rd, rn, rm } => self.finish(rd, self.reg(rn) >> (self.reg(rm) % 64)),
            Inst::Asrv { rd, rn, rm } => self.finish(rd, shift_signed(self.reg(rn), self.reg(rm))),
            Inst::Movz { rd, hw, imm } => self.finish(rd, quarter(hw, imm)),
            Inst::Movk { rd, hw, imm } => self.finish(rd, put_quarter(self.reg(rd), hw, imm)),
            Inst::Csinc { rd, rn, rm, cond } => self.finish(rd, self.chosen(rn, rm, cond)),
            Inst::Ldr { rt, rn, imm } => self.load(rt, self.address(rn, imm), memory),
            Inst::Str { rt, rn, imm } => self.store(rt, self.address(rn, imm), memory),
            Inst::LdrReg { rt, rn, rm } => self.load(rt, self.element(rn, rm), memory),
            Inst::StrReg { rt, rn, rm } => self.store(rt, self.element(rn, rm), memory),
            Inst::B { offset } => self.jump(branch_target(self.pc, offset)),
            Inst::Bl { offset } => self.link(branch_target(self.pc, offset)),
            Inst::BCond { cond, offset } => self.branch_if(self.holds(cond), offset),
            Inst::Cbz { rt, offset } => self.branch_if(self.reg(rt) == 0, offset),
            Inst::Cbnz { rt, offset } => self.branch_if(self.reg(rt) != 0, offset),
            Inst::Blr { rn } => self.link(self.reg(rn)),
            Inst::Ret { rn } => self.jump(self.reg(rn)),
            Inst::Svc { imm } => self.call_monitor(imm),
            Inst::Brk { imm } => self.trap(imm),
            Inst::Nop => self.go_on(),
        }
    }
}
