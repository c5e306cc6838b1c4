//! The interpreter: the state of a run, and what each part of a step makes of it.
ghost use Rattle.std.specs.Prelude.{◌≡◌, ◌<◌, ◌≤◌, ◌^◌, false, [], ◌∷◌, is_some, length, IfOk};
ghost use Rattle.oat_check.specs.{signed, outputs, halted};
ghost use Rattle.oat_check.specs.Globals.{length_at};
ghost use Rattle.oat_check.specs.Keeping.{IsConsistent};
ghost use Rattle.oat_check.specs.Rules.{IsChecked};
ghost use Rattle.oat_check.specs.Naming.{source_site, written_edge};
ghost use Rattle.oat_check.specs.Steps.{
  LineEdge,
  branches,
  calls,
  closes,
  computes,
  does,
  ends_by,
  gives,
  goes_to,
  in_array,
  jumps,
  line_place,
  onward,
  reads,
  runs,
  sets,
  silent,
  source_step,
  takes_in,
  traps_by,
  writes,
};

use crate::activation::Activation;
use crate::arithmetic::result_of;
use crate::callers::{Callers, MOST_CALLERS};
use crate::globals::Globals;
use crate::lines::{current_block, main_number, operation_of, result_at};
use crate::record::Record;
use oat_ir::{Instr, Program, SourceEdge, SourceEnd, SourceSite, Term, TrapKind};
use std::alloc::{AllocError, Global};
use std::mem;

/// A run at the moment before a step.
#[derive(Drop)]
pub struct Interpreter<'a> {
    pub program: &'a Program,
    pub running: Activation,
    pub callers: Callers,
    pub globals: Globals<'a>,
    /// The inputs that are left.
    pub inputs: &'a [i64],
    /// OutOfSteps while the run goes on.
    pub end: SourceEnd,
    pub kept: Record,
}

fn func_site(func: u32) -> SourceSite
    ensures { result ≡ source_site func 0 0 }
{
    SourceSite {
        func,
        block: 0,
        number: 0,
    }
}

impl<'a> Interpreter<'a> {
    ghost use Rattle.oat_meaning.specs.Standing.{Allows, CanResume, GoesPast, HasStepped, IsWellKept, finish_of, runs_through, source_state_of};
    ghost use Rattle.oat_meaning.specs.Activations.{locals_of};
    ghost use Rattle.oat_meaning.specs.Made.{HasReached};
    ghost use Rattle.oat_meaning.specs.Recording.{ends_path};
    ghost use Rattle.oat_meaning.specs.SourceRun.{first_run};

    /// Takes all memory of a run of at most so many steps.
    pub fn at_start(
        alloc: Global,
        program: &'a Program,
        inputs: &'a [i64],
        op: u16,
        steps: u32,
    ) -> Result<Interpreter<'a>, AllocError>
        requires checked { IsChecked program.now }
        requires few { steps ≤ 4194304 }
        ensures { IfOk result (λ m. HasReached m (first_run program.now inputs.now op steps)) }
    {
        Ok(Interpreter {
            program,
            running: Activation {
                func: main_number(program),
                block: 0,
                line: 0,
                number: 0,
                locals: [0; 255],
            },
            callers: Callers::with_room(alloc)?,
            globals: Globals::at_start(alloc, program)?,
            inputs,
            end: SourceEnd::OutOfSteps,
            kept: Record::with_room(alloc, op, steps)?,
        })
    }

    pub fn has_ended(&self) -> bool
        ensures { result ≡ is_some (finish_of self.now.end) }
    {
        !matches!(self.end, SourceEnd::OutOfSteps)
    }

    pub fn halt(&mut self)
        requires { IsWellKept self.old }
        ensures { HasStepped self.old (ends_by (source_state_of self.old) halted) self.new }
    {
        self.end = SourceEnd::Halted;
    }

    pub fn trap(&mut self, kind: TrapKind)
        requires { IsWellKept self.old }
        ensures { HasStepped self.old (traps_by (source_state_of self.old) kind) self.new }
    {
        self.end = SourceEnd::Trap(kind);
    }

    /// Sets a local.
    pub fn set(&mut self, x: u32, value: u64)
        requires ready { IsWellKept self.old }
        requires onward { GoesPast self.old.program.now self.old.running 0 }
        requires low { x < 255 }
        ensures made { HasStepped self.old (silent (sets (source_state_of self.old) x value)) self.new }
        ensures kept { self.new.kept ≡ self.old.kept }
    {
        self.running.locals[x as usize] = value;
        self.running.line += 1;
    }

    pub fn compute(&mut self, x: u32, outcome: Option<u64>)
        requires ready { IsWellKept self.old }
        requires onward { GoesPast self.old.program.now self.old.running 0 }
        requires low { x < 255 }
        ensures { HasStepped self.old (computes (source_state_of self.old) x outcome) self.new }
    {
        match outcome {
            Some(value) => self.set(x, value),
            None => self.trap(TrapKind::DivZero),
        }
    }

    /// Reads an element of a global into a local.
    pub fn read(&mut self, x: u32, global: u32, i: usize)
        requires ready { IsWellKept self.old }
        requires onward { GoesPast self.old.program.now self.old.running 0 }
        requires low { x < 255 }
        requires there { i < length_at self.old.program.now global }
        requires left { 0 < self.old.kept.left }
        ensures { HasStepped self.old (reads self.old.program.now (source_state_of self.old) x global i) self.new }
    {
        let value = self.globals.get(global, i);
        let cell = self.globals.cell_number(global, i);
        self.kept.load(cell, value);
        self.set(x, value);
    }

    /// Writes an element of a global.
    pub fn write(&mut self, global: u32, i: usize, value: u64)
        requires ready { IsWellKept self.old }
        requires onward { GoesPast self.old.program.now self.old.running 0 }
        requires there { i < length_at self.old.program.now global }
        ensures { HasStepped self.old (writes self.old.program.now (source_state_of self.old) global i value) self.new }
    {
        self.globals.put(global, i, value);
        self.running.line += 1;
    }

    pub fn read_at(&mut self, x: u32, array: u32, i: u64)
        requires ready { IsWellKept self.old }
        requires onward { GoesPast self.old.program.now self.old.running 0 }
        requires low { x < 255 }
        requires left { 0 < self.old.kept.left }
        ensures { HasStepped self.old (in_array self.old.program.now (source_state_of self.old) array i (reads self.old.program.now (source_state_of self.old) x array i)) self.new }
    {
        if i < self.globals.length_at(array) as u64 {
            self.read(x, array, i as usize);
        } else {
            self.trap(TrapKind::Index);
        }
    }

    pub fn write_at(&mut self, array: u32, i: u64, value: u64)
        requires ready { IsWellKept self.old }
        requires onward { GoesPast self.old.program.now self.old.running 0 }
        ensures { HasStepped self.old (in_array self.old.program.now (source_state_of self.old) array i (writes self.old.program.now (source_state_of self.old) array i value)) self.new }
    {
        if i < self.globals.length_at(array) as u64 {
            self.write(array, i as usize, value);
        } else {
            self.trap(TrapKind::Index);
        }
    }

    pub fn input(&mut self, x: u32)
        requires ready { IsWellKept self.old }
        requires onward { GoesPast self.old.program.now self.old.running 0 }
        requires low { x < 255 }
        ensures { HasStepped self.old (takes_in (source_state_of self.old) x self.old.inputs.now) self.new }
    {
        match self.inputs.split_first() {
            Some((value, rest)) => {
                self.inputs = rest;
                self.set(x, value.cast_unsigned());
            }
            None => self.trap(TrapKind::InputEnd),
        }
    }

    pub fn output(&mut self, value: u64)
        requires ready { IsWellKept self.old }
        requires onward { GoesPast self.old.program.now self.old.running 0 }
        requires left { 0 < self.old.kept.left }
        ensures { HasStepped self.old (record { state = onward (source_state_of self.old); shown = outputs (signed value) ∷ [] }) self.new }
    {
        self.kept.output(value.cast_signed());
        self.running.line += 1;
    }

    fn go_to(&mut self, block: u32, edge: SourceEdge)
        requires ready { IsWellKept self.old }
        requires goes_on { ends_path edge ≡ false }
        requires left { 0 < self.old.kept.left }
        ensures { (e : LineEdge) → edge ≡ written_edge self.old.program.now e → HasStepped self.old (goes_to (source_state_of self.old) e block) self.new }
    {
        self.kept.edge(edge);
        self.running.block = block;
        self.running.line = 0;
        self.running.number = 0;
    }

    fn block_site(&self, block: u32) -> SourceSite
        ensures { result ≡ source_site self.now.running.func block 0 }
    {
        SourceSite {
            func: self.running.func,
            block,
            number: 0,
        }
    }

    pub fn jump(&mut self, to: u32)
        requires ready { IsWellKept self.old }
        requires left { 0 < self.old.kept.left }
        ensures { HasStepped self.old (goes_to (source_state_of self.old) (jumps (line_place (source_state_of self.old).frame) to) to) self.new }
    {
        let edge = SourceEdge::Jump {
            from: self.running.site(),
            to: self.block_site(to),
        };
        self.go_to(to, edge);
    }

    pub fn branch(&mut self, bit: bool, to: u32)
        requires ready { IsWellKept self.old }
        requires left { 0 < self.old.kept.left }
        ensures { HasStepped self.old (goes_to (source_state_of self.old) (branches (line_place (source_state_of self.old).frame) bit to) to) self.new }
    {
        let edge = SourceEdge::Branch {
            from: self.running.site(),
            bit,
            to: self.block_site(to),
        };
        self.go_to(to, edge);
    }

    /// Calls a function with some of the locals.
    pub fn call(&mut self, edge: SourceEdge, func: u32, args: &[u32])
        requires ready { IsWellKept self.old }
        requires goes_on { ends_path edge ≡ false }
        requires few { length args.now ≤ 4 }
        requires left { 0 < self.old.kept.left }
        ensures { (e : LineEdge) → edge ≡ written_edge self.old.program.now e → HasStepped self.old (runs self.old.program.now (source_state_of self.old) e func args.now) self.new }
    {
        if self.callers.len() >= MOST_CALLERS {
            self.trap(TrapKind::Depth);
            return;
        }
        let callee = Activation {
            func,
            block: 0,
            line: 0,
            number: 0,
            locals: self.running.pass(args),
        };
        let caller = mem::replace(&mut self.running, callee);
        self.callers.push(caller);
        self.kept.call(edge, operation_of(self.program, func));
    }

    /// Returns to the last caller, if there is one.
    pub fn ret(&mut self, value: u64)
        requires ready { IsWellKept self.old }
        requires resume { CanResume self.old.program.now self.old.callers }
        requires left { 0 < self.old.kept.left }
        ensures { HasStepped self.old (gives self.old.program.now (source_state_of self.old) value (source_state_of self.old).callers) self.new }
    {
        let Some(mut caller) = self.callers.pop() else {
            return;
        };
        let edge = SourceEdge::Ret {
            from: self.running.site(),
            to: caller.site(),
        };
        let left = operation_of(self.program, self.running.func);
        caller.resume(result_at(self.program, &caller), value);
        self.running = caller;
        self.kept.ret(edge, left);
    }

    /// Calls a function directly.
    pub fn call_direct(&mut self, func: u32, args: &[u32])
        requires ready { IsWellKept self.old }
        requires few { length args.now ≤ 4 }
        requires left { 0 < self.old.kept.left }
        ensures { HasStepped self.old (runs self.old.program.now (source_state_of self.old) (calls (line_place (source_state_of self.old).frame) func) func args.now) self.new }
    {
        let edge = SourceEdge::Call {
            from: self.running.site(),
            to: func_site(func),
        };
        self.call(edge, func, args);
    }

    /// Calls the function to which a reference leads, if it isn't null.
    pub fn call_through(&mut self, reference: u64, args: &[u32])
        requires ready { IsWellKept self.old }
        requires few { length args.now ≤ 4 }
        requires target { reference < 2 ^ 32 }
        requires left { 0 < self.old.kept.left }
        ensures { HasStepped self.old (runs_through self.old.program.now (source_state_of self.old) reference args.now) self.new }
    {
        if reference == 0 {
            self.trap(TrapKind::NullCall);
            return;
        }
        let func = (reference - 1) as u32;
        let edge = SourceEdge::ICall {
            from: self.running.site(),
            to: func_site(func),
        };
        self.call(edge, func, args);
    }

    /// Makes the step of an instruction.
    pub fn execute(&mut self, instr: &Instr)
        requires ready { IsWellKept self.old }
        requires left { 0 < self.old.kept.left }
        requires allows { Allows self.old.program.now self.old.running instr.now }
        ensures { HasStepped self.old (does self.old.program.now (source_state_of self.old) (locals_of self.old.running) instr.now) self.new }
    {
        match instr {
            Instr::Const { x, value } => self.set(*x, value.cast_unsigned()),
            Instr::Copy { x, y } => {
                let value = self.running.get(*y);
                self.set(*x, value);
            }
            Instr::Binary { op, x, y, z } => {
                let result = result_of(*op, self.running.get(*y), self.running.get(*z));
                self.compute(*x, result);
            }
            Instr::Load { x, global } => self.read(*x, *global, 0),
            Instr::Store { global, x } => {
                let value = self.running.get(*x);
                self.write(*global, 0, value);
            }
            Instr::LoadX { x, array, i } => {
                let i = self.running.get(*i);
                self.read_at(*x, *array, i);
            }
            Instr::StoreX { array, i, x } => {
                let i = self.running.get(*i);
                let value = self.running.get(*x);
                self.write_at(*array, i, value);
            }
            Instr::RefTo { x, func } => self.set(*x, u64::from(*func) + 1),
            Instr::Call { func, args, .. } => self.call_direct(*func, args.as_slice()),
            Instr::ICall { y, args, .. } => {
                let reference = self.running.get(*y);
                self.call_through(reference, args.as_slice());
            }
            Instr::Input { x } => self.input(*x),
            Instr::Output { x } => {
                let value = self.running.get(*x);
                self.output(value);
            }
        }
    }

    /// Makes the step of a terminator.
    pub fn close(&mut self, term: Term)
        requires ready { IsWellKept self.old }
        requires left { 0 < self.old.kept.left }
        requires resume { CanResume self.old.program.now self.old.callers }
        ensures { HasStepped self.old (closes self.old.program.now (source_state_of self.old) (locals_of self.old.running) term) self.new }
    {
        match term {
            Term::Jump { to } => self.jump(to),
            Term::Branch { x, first, second } => {
                if self.running.get(x) == 0 {
                    self.branch(false, second);
                } else {
                    self.branch(true, first);
                }
            }
            Term::Ret { x } => {
                let value = self.running.get(x);
                self.ret(value);
            }
            Term::Halt => self.halt(),
        }
    }

    /// Makes the next step of a run of a checked program that goes on.
    pub fn step(&mut self)
        requires ready { IsWellKept self.old }
        requires left { 0 < self.old.kept.left }
        requires going { is_some (finish_of self.old.end) ≡ false }
        requires checked { IsChecked self.old.program.now }
        requires consistent { IsConsistent self.old.program.now (source_state_of self.old) }
        ensures { HasStepped self.old (source_step self.old.program.now (source_state_of self.old)) self.new }
    {
        let program = self.program;
        let Some(block) = current_block(program, &self.running) else {
            return;
        };
        match block.instrs.as_slice().get(self.running.line as usize) {
            Some(instr) => self.execute(instr),
            None => self.close(block.term),
        }
    }
}
