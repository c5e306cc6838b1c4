//! The run of a device in the making: turn by turn the bare run, and the monitor that takes its calls.
ghost use Rattle.std.specs.Prelude.{◌≡◌, ◌<◌, ◌≤◌, ◌+◌, IsSome, None, Some};
ghost use Rattle.oat_cpu.specs.Processor.{regs_of};
ghost use Rattle.oat_device.specs.Bare.{DoesFrom};
ghost use Rattle.oat_device.specs.Records.{bits_taken, targets_taken};
ghost use Rattle.oat_device.specs.Standing.{HasShelfRoom, IsReady, LeavesRoom, TakesCall, TakesTurn, engine_opening, shelf_bits, shelf_targets, spare_bits, spare_targets};
ghost use Rattle.oat_journal.specs.Progress.{call_told};

use crate::bare::BareRun;
use crate::call::call_numbered;
use crate::monitor::{settled, told};
use oat_a64::Event;
use oat_cpu::Cpu;
use oat_journal::DeviceEnd;
use oat_measure::{Engine, MonitorCall, Shelf};

#[derive(Drop)]
pub struct Course<'a> {
    pub bare: BareRun<'a>,
    /// The most instructions that the run may make.
    pub steps: u64,
    /// None only while the monitor takes a call.
    pub engine: Option<Engine>,
    /// The windows before the engine's.
    pub shelf: Shelf,
}

fn call_told(event: Event, found: &Cpu) -> Option<MonitorCall>
    ensures { result ≡ call_told event (regs_of found.now) }
{
    match event {
        Event::Svc(number) => {
            call_numbered(number, found.pc, found.x[9], found.x[10], found.x[30])
        }
        _ => None,
    }
}

impl<'a> Course<'a> {
    // The monitor takes a call, and a sealed window goes to the shelf where a further one is due.
    fn tell(&mut self, call: MonitorCall)
        requires engine { IsSome self.old.engine }
        requires bits { bits_taken call ≤ spare_bits self.old.engine }
        requires targets { targets_taken call ≤ spare_targets self.old.engine }
        requires shelf { HasShelfRoom self.old }
        requires bits_to_shelve { bits_taken call ≤ shelf_bits self.old }
        requires targets_to_shelve { targets_taken call ≤ shelf_targets self.old }
        ensures after { TakesCall call self.old self.new }
        ensures opening { engine_opening self.new.engine ≡ engine_opening self.old.engine }
        ensures room { LeavesRoom (bits_taken call) (targets_taken call) self.old self.new }
        ensures steps { self.new.steps ≡ self.old.steps }
        ensures bare { self.new.bare ≡ record self.old.bare { end = self.new.bare.end } }
    {
        let (engine, stop) = told(self.engine.take().unwrap(), call);
        if let Some(kind) = stop {
            self.engine = Some(engine);
            self.bare.end = Some(DeviceEnd::Stopped(kind));
            return;
        }
        self.engine = Some(settled(engine, &mut self.shelf));
    }

    /// Makes the writes that are due, the next instruction, and the measurement of its monitor call.
    pub fn turn(&mut self)
        requires going { self.old.bare.end ≡ None }
        requires left { self.old.bare.made < self.old.steps }
        requires ready { IsReady self.old }
        ensures after { TakesTurn self.old self.new }
        ensures opening { engine_opening self.new.engine ≡ engine_opening self.old.engine }
        ensures steps { self.new.steps ≡ self.old.steps }
        ensures code { self.new.bare.code.now ≡ self.old.bare.code.now }
        ensures made { self.new.bare.made ≡ self.old.bare.made + 1 }
        ensures writes { DoesFrom self.new.bare.made self.new.bare.writes.now self.old.bare.writes.now }
        ensures ready { IsReady self.new }
    {
        let found = self.bare.cpu;
        let event = self.bare.turn();
        if let Some(call) = call_told(event, &found) {
            self.tell(call);
        }
    }
}
