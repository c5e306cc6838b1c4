ghost use Rattle.std.specs.Prelude.{◌≡◌, ◌↔◌, ◌<◌, length, slice_get, IfOk, IsSome, IsTrue, MatchOption, None, Some};
ghost use Rattle.oat_journal.specs.{Body, IsBlobOf, IsWellFormedCase, measuring, sealed, IsOperation};
ghost use Rattle.oat_measure.specs.declared.engine.Engine.TheVariants as EngineState;
ghost use Rattle.oat_journal.specs.Measured.{end_of};
ghost use Rattle.oat_device.specs.Advancing.{HasEntry, HasNoEntry, IsInside, end_by_now, run_after_next};
ghost use Rattle.oat_device.specs.DeviceRun.{BodiesAreTrue, IsAtStart, IsSealed, ReportsItsBody, bodies_so_far, run_so_far};
ghost use Rattle.oat_device.specs.Standing.{state_of};

use crate::bare::BareRun;
use crate::course::Course;
use crate::entry::Entry;
use crate::start::{opening, start_cells, start_memory};
use oat_a64::word_at;
use oat_blob::encode;
use oat_case::Case;
use oat_cpu::Cpu;
use oat_journal::DeviceEnd;
use oat_measure::{Engine, Sealed, Shelf, Unmeasured};
use oat_shape::Shaped;
use std::alloc::{AllocError, Global};
use std::marker::Model;

fn sealed_in(engine: &Option<Engine>) -> Option<&Sealed>
    ensures { MatchOption result ((state_of engine.now).stage ≡ sealed → ⊥) (λ shown. engine.now ≡ Some (EngineState.After shown.now)) }
{
    match engine {
        Some(Engine::After(sealed)) => Some(sealed),
        _ => None,
    }
}

fn is_measuring(engine: &Option<Engine>) -> bool
    ensures { IsTrue result ↔ ((state_of engine.now).stage ≡ measuring) }
{
    match engine {
        Some(Engine::Inside(_)) => true,
        _ => false,
    }
}

/// A device on its way through the run of a case on an image, with the monitor that measures it.
#[derive(Drop)]
pub struct Device<'a> {
    shaped: &'a Shaped,
    case: &'a Case,
    begin_at: u64,
    course: Course<'a>,
}

impl<'a> Model for Device<'a> {
    ghost use Rattle.oat_device.specs.DeviceRun.{DeviceRun};
    ghost use Rattle.oat_device.specs.Standing.{HasMade, turns_of};

    ghost Value = { DeviceRun };

    ghost view = { λ device. record {
      image = device.shaped.now;
      case = device.case.now;
      begin_at = device.begin_at;
      turns = turns_of device.course;
    } };

    ghost invariant = { λ device. HasMade device.course device.shaped.now device.case.now device.begin_at };
}

impl<'a> Device<'a> {
    /// Takes all memory of the run: its outputs could be one for each step, its branch bits and its indirect targets one for each second step,
    /// in one window or on the shelf.
    pub fn boot(alloc: Global, shaped: &'a Shaped, case: &'a Case) -> Result<Device<'a>, AllocError>
        requires well_formed { IsWellFormedCase case.now }
        requires operation { IsOperation shaped.now.map case.now.session.op }
        ensures { IfOk result (λ device. IsAtStart device shaped.now case.now) }
    {
        let image = shaped.image();
        let memory = start_memory(alloc, image)?;
        let cells = start_cells(alloc, image, &memory)?;
        let room = (case.steps as usize).div_ceil(2);
        let opening = opening(shaped, &case.session);
        let engine = Unmeasured::boot(alloc, opening, cells.as_slice(), room)?;
        let shelf = Shelf::with_room(alloc, opening.calls as usize, room)?;
        let bare = BareRun {
            code: image.code.as_slice(),
            cpu: Cpu::start(),
            memory,
            made: 0,
            inputs: case.inputs.as_slice(),
            writes: case.writes.as_slice(),
            outputs: Vec::with_capacity(alloc, case.steps as usize)?,
            end: None,
        };
        let course = Course {
            bare,
            steps: case.steps,
            engine: Some(Engine::Before(engine)),
            shelf,
        };
        Ok(Device {
            shaped,
            case,
            begin_at: opening.begin_at,
            course,
        })
    }

    /// Makes the run up to its end or the last of its steps, and takes no memory. A second call answers the same and changes nothing.
    pub fn run(&mut self) -> DeviceEnd
        ensures whole { self.new ≡ record self.old { turns = self.old.case.steps } }
        ensures ended { result ≡ end_of (run_so_far self.new) }
        ensures bodies { BodiesAreTrue self.new }
    {
        for _ in self.course.bare.made..self.course.steps {
            if self.course.bare.end.is_some() {
                break;
            }
            self.course.turn();
        }
        self.course.bare.end.unwrap_or(DeviceEnd::OutOfSteps)
    }

    /// Makes the writes that are due and the next instruction, with its monitor call, and answers its entry where that doesn't end the run.
    pub fn advance(&mut self) -> Option<Entry>
        ensures same { self.new ≡ record self.old { turns = self.new.turns } }
        ensures rests { IsSome (end_by_now self.old) → self.new ≡ self.old }
        ensures makes { end_by_now self.old ≡ None → run_so_far self.new ≡ run_after_next self.old }
        ensures answers { MatchOption result (HasNoEntry self.old self.new) (HasEntry self.old self.new) }
    {
        if self.end().is_some() {
            return None;
        }
        let found = self.course.bare.cpu;
        self.course.turn();
        let ended = self.course.bare.end.is_some();
        if ended {
            return None;
        }
        Some(Entry {
            word: word_at(self.course.bare.code, found.pc).unwrap(),
            pc: found.pc,
            next: self.course.bare.cpu.pc,
            x9: found.x[9],
            x10: found.x[10],
            x30: found.x[30],
        })
    }

    /// How the run ended: None exactly while it goes on.
    pub fn end(&self) -> Option<DeviceEnd>
        ensures end { result ≡ end_by_now self.now }
        ensures whole { IsSome result → self.now.turns ≡ self.now.case.steps }
    {
        let end = self.course.bare.end;
        if self.course.bare.made < self.course.steps {
            end
        } else {
            Some(end.unwrap_or(DeviceEnd::OutOfSteps))
        }
    }

    /// Whether a window is open.
    pub fn inside(&self) -> bool
        ensures { IsTrue result ↔ IsInside (run_so_far self.now) }
    {
        is_measuring(&self.course.engine)
    }

    /// The outputs so far.
    pub fn outputs(&self) -> &[i64]
        ensures { result.now ≡ (run_so_far self.now).running.outputs }
    {
        self.course.bare.outputs.as_slice()
    }

    /// The measurement of the session's last window; None exactly where that hasn't sealed.
    pub fn sealed(&self) -> Option<&Sealed>
        ensures { MatchOption result (IsSealed (run_so_far self.now) → ⊥) (λ shown. ReportsItsBody self.now shown.now) }
    {
        sealed_in(&self.course.engine)
    }

    /// How many windows have sealed.
    pub fn bodies(&self) -> u32
        ensures { result ≡ length (bodies_so_far self.now) }
    {
        let shelved = self.course.shelf.len() as u32;
        match self.sealed() {
            Some(_) => shelved + 1,
            None => shelved,
        }
    }

    /// The blob of a window's body under the case's key.
    pub fn blob(&self, alloc: Global, serial: u32) -> Result<Vec<u8>, AllocError>
        requires within { serial < length (bodies_so_far self.now) }
        ensures { IfOk result (λ bytes. (body : Body) → slice_get (bodies_so_far self.now) serial ≡ Some body → IsBlobOf body self.now.case.session.key bytes.items) }
    {
        let key = self.case.session.key.as_slice();
        let shelf = &self.course.shelf;
        let i = serial as usize;
        if i < shelf.len() {
            let bits = shelf.bits(i, alloc)?;
            return encode(alloc, &shelf.head(i), &bits, shelf.targets(i), key);
        }
        let sealed = self.sealed().unwrap();
        encode(alloc, &sealed.head(), sealed.bits(), sealed.targets(), key)
    }
}
