//! The bare run: the processor, and what its calls 0, 8 and 9, its traps and its faults do.
ghost use Rattle.std.specs.Prelude.{◌≡◌, ◌+◌, ◌<◌, ◌≤◌, ◌^◌, None, vec_len, vec_capacity};
ghost use Rattle.std.specs.List.{AllByRecursion};
ghost use Rattle.oat_journal.specs.{step, IsInLimits, RisesFrom};
ghost use Rattle.oat_journal.specs.Run.{called, ends_with, found, moves_on, with_output, with_input, told, trap_of, turn};
ghost use Rattle.oat_device.specs.Bare.{HasSame, DoesFrom, running_of};

use crate::writes::make_due;
use oat_a64::Event;
use oat_case::Write;
use oat_cpu::Cpu;
use oat_journal::DeviceEnd;
use oat_map::TrapKind;
use oat_mem::Memory;

/// A bare run at the moment before an instruction.
#[derive(Drop)]
pub struct BareRun<'a> {
    pub code: &'a [u32],
    pub cpu: Cpu,
    pub memory: Memory,
    /// How many instructions were made.
    pub made: u64,
    /// The inputs that are left.
    pub inputs: &'a [i64],
    /// The data writes that are left.
    pub writes: &'a [Write],
    /// With room for one more of each instruction that is left.
    pub outputs: Vec<i64>,
    pub end: Option<DeviceEnd>,
}

fn trap_of(number: u16) -> TrapKind
    ensures { result ≡ trap_of number }
{
    match number {
        1 => TrapKind::DivZero,
        2 => TrapKind::Index,
        3 => TrapKind::NullCall,
        _ => TrapKind::Depth,
    }
}

impl<'a> BareRun<'a> {
    fn go_on(&mut self)
        requires { self.old.made < 2 ^ 63 }
        ensures after { running_of self.new ≡ moves_on (running_of self.old) (running_of self.old).machine }
        ensures same { HasSame self.old self.new }
    {
        self.made += 1;
    }

    fn end_with(&mut self, why: DeviceEnd)
        requires { self.old.made < 2 ^ 63 }
        ensures after { running_of self.new ≡ ends_with (running_of self.old) (running_of self.old).machine why }
        ensures same { HasSame self.old self.new }
    {
        self.made += 1;
        self.end = Some(why);
    }

    fn take(&mut self)
        requires { self.old.made < 2 ^ 63 }
        ensures after { running_of self.new ≡ with_input (running_of self.old) (running_of self.old).machine self.old.inputs.now }
        ensures same { HasSame self.old self.new }
    {
        match self.inputs.split_first() {
            Some((value, rest)) => {
                self.cpu.x[0] = value.cast_unsigned();
                self.inputs = rest;
                self.made += 1;
            }
            None => self.end_with(DeviceEnd::Trap(TrapKind::InputEnd)),
        }
    }

    fn put(&mut self)
        requires countable { self.old.made < 2 ^ 63 }
        requires room { vec_len self.old.outputs < vec_capacity self.old.outputs }
        ensures after { running_of self.new ≡ with_output (running_of self.old) (running_of self.old).machine }
        ensures same { HasSame self.old self.new }
    {
        self.outputs.push_reserved(self.cpu.x[0].cast_signed());
        self.made += 1;
    }

    fn call(&mut self, number: u16)
        requires countable { self.old.made < 2 ^ 63 }
        requires room { vec_len self.old.outputs < vec_capacity self.old.outputs }
        ensures after { running_of self.new ≡ called (running_of self.old) (running_of self.old).machine number }
        ensures same { HasSame self.old self.new }
    {
        match number {
            0 => self.end_with(DeviceEnd::Halted),
            8 => self.take(),
            9 => self.put(),
            _ => self.go_on(),
        }
    }

    fn hear(&mut self, event: Event)
        requires countable { self.old.made < 2 ^ 63 }
        requires room { vec_len self.old.outputs < vec_capacity self.old.outputs }
        ensures after { running_of self.new ≡ told (running_of self.old) (running_of self.old).machine event }
        ensures same { HasSame self.old self.new }
    {
        match event {
            Event::Next => self.go_on(),
            Event::Svc(number) => self.call(number),
            Event::Brk(number) => self.end_with(DeviceEnd::Trap(trap_of(number))),
            Event::Fault(kind) => self.end_with(DeviceEnd::Fault(kind)),
        }
    }

    /// Makes the writes that are due and the next instruction, and tells what that told.
    #[tactic(auto, unfolding(oat_journal::specs::Run::turn))]
    pub fn turn(&mut self) -> Event
        requires going { self.old.end ≡ None }
        requires countable { self.old.made < 2 ^ 63 }
        requires room { vec_len self.old.outputs < vec_capacity self.old.outputs }
        requires writes_fit { AllByRecursion IsInLimits self.old.writes.now }
        requires writes_rise { RisesFrom self.old.made self.old.writes.now }
        ensures event { result ≡ (step self.old.code.now (found self.old.writes.now (running_of self.old))).event }
        ensures after { running_of self.new ≡ turn self.old.code.now self.old.writes.now (running_of self.old) }
        ensures code { self.new.code.now ≡ self.old.code.now }
        ensures made { self.new.made ≡ self.old.made + 1 }
        ensures outputs { vec_len self.new.outputs ≤ vec_len self.old.outputs + 1 }
        ensures capacity { vec_capacity self.new.outputs ≡ vec_capacity self.old.outputs }
        ensures fit { AllByRecursion IsInLimits self.new.writes.now }
        ensures rise { RisesFrom (self.old.made + 1) self.new.writes.now }
        ensures left { DoesFrom (self.old.made + 1) self.new.writes.now self.old.writes.now }
    {
        self.writes = make_due(&mut self.memory, self.writes, self.made);
        let event = self.cpu.step(self.code, &mut self.memory);
        self.hear(event);
        event
    }
}
