//! The state of a run, and what each part of a step makes of it.
ghost use Rattle.std.specs.Prelude.{◌≡◌, ◌+◌, ◌<◌, ◌≤◌, ◌^◌, [], ◌∷◌, None, Some, IfSome, if◌then◌else◌, is_some, length, get_or, map, nat_lt, false};
ghost use Rattle.oat_bits.specs.Words.{signed};
ghost use Rattle.oat_check.specs.Rules.{is_main_role};
ghost use Rattle.oat_events.specs.Events.{outputs};
ghost use Rattle.oat_events.specs.Source.{halted};
ghost use Rattle.oat_meaning.specs.Standing.{finish_of};
ghost use Rattle.oat_map.specs.declared.trap.TrapKind.TheVariants.{Index};
ghost use Rattle.oat_langrun.specs.Meaning.{
  Shown,
  acts,
  arguments,
  ends_with,
  enters,
  given_back,
  gives,
  gives_if,
  gives_input,
  goes_on_at,
  lang_step,
  length_of,
  operated,
  operation_at,
  quietly,
  reads_global,
  step_at,
  traps_with,
  uses,
  uses_here,
  writes_global,
};

use crate::activation::Activation;
use crate::callers::{Callers, MOST_CALLERS};
use crate::memory::Memory;
use crate::record::Record;
use crate::routine::Routine;
use crate::step::{Act, Step, Use};
use oat_ir::{BinOp, Role, SourceEnd};
use oat_list::Listed;
use oat_map::TrapKind;
use oat_meaning::result_of;
use oat_tree::{Item, Operator};
use std::mem;

/// A run at the moment before a step.
#[derive(Drop)]
pub struct Interpreter<'a> {
    pub items: &'a [Item],
    pub routines: Listed<Routine>,
    pub running: Activation,
    pub callers: Callers,
    pub memory: Memory,
    /// The inputs that are left.
    pub inputs: &'a [i64],
    /// OutOfSteps while the run goes on.
    pub end: SourceEnd,
    pub kept: Record,
}

/// None where it divides by 0.
fn operated(operator: Operator, a: u64, b: u64) -> Option<u64>
    ensures { result ≡ operated operator a b }
{
    match operator {
        Operator::Equal => result_of(BinOp::Eq, a, b),
        Operator::Unequal => result_of(BinOp::Ne, a, b),
        Operator::Less => result_of(BinOp::Lt, a, b),
        Operator::AtMost => result_of(BinOp::Le, a, b),
        Operator::Greater => result_of(BinOp::Lt, b, a),
        Operator::AtLeast => result_of(BinOp::Le, b, a),
        Operator::BitOr => result_of(BinOp::Or, a, b),
        Operator::BitXor => result_of(BinOp::Xor, a, b),
        Operator::BitAnd => result_of(BinOp::And, a, b),
        Operator::ShiftLeft => result_of(BinOp::Shl, a, b),
        Operator::ShiftRight => result_of(BinOp::Sar, a, b),
        Operator::Plus => result_of(BinOp::Add, a, b),
        Operator::Minus => result_of(BinOp::Sub, a, b),
        Operator::Times => result_of(BinOp::Mul, a, b),
        Operator::Quotient => result_of(BinOp::Div, a, b),
        Operator::Remainder => result_of(BinOp::Rem, a, b),
    }
}

impl<'a> Interpreter<'a> {
    ghost use Rattle.oat_langrun.specs.Standing.{operands_of, run_of};
    ghost use Rattle.oat_langrun.specs.Running.{CanUse, HasStepped, HasResumed, HasWords, IsCalled, IsReady, StandsAt, code_of, state_of};

    pub fn has_ended(&self) -> bool
        ensures { result ≡ is_some (finish_of self.now.end) }
    {
        !matches!(self.end, SourceEnd::OutOfSteps)
    }

    fn current(&self) -> Option<Step>
        ensures { result ≡ step_at (code_of self.now) (run_of self.now.running) }
    {
        let routine = self.routines.as_slice().get(self.running.func as usize)?;
        routine.steps.as_slice().get(self.running.place).copied()
    }

    fn operation_of(&self, func: u32) -> Option<u16>
        ensures { result ≡ operation_at (code_of self.now) func }
    {
        match self.routines.as_slice().get(func as usize)?.role {
            Role::Operation(op) => Some(op),
            _ => None,
        }
    }

    fn halt(&mut self)
        ensures { HasStepped self.old (ends_with (state_of self.old) halted) self.new }
    {
        self.end = SourceEnd::Halted;
    }

    fn trap(&mut self, kind: TrapKind)
        ensures { HasStepped self.old (traps_with (state_of self.old) kind) self.new }
    {
        self.end = SourceEnd::Trap(kind);
    }

    fn go_to(&mut self, place: usize)
        ensures { HasStepped self.old (quietly (goes_on_at (state_of self.old) place)) self.new }
    {
        self.running.place = place;
    }

    fn output(&mut self, value: u64, place: u32)
        requires { 0 < self.old.kept.left }
        ensures { HasStepped self.old (record { state = goes_on_at (state_of self.old) place; shown = outputs (signed value) ∷ [] }) self.new }
    {
        self.kept.output(value.cast_signed());
        self.running.place = place as usize;
    }

    fn store(&mut self, global: u32, i: usize, value: u64, place: u32)
        requires { i < length (get_or self.old.memory global []) }
        ensures { HasStepped self.old (writes_global (code_of self.old) (state_of self.old) global i value place) self.new }
    {
        self.memory.put(global, i, value);
        self.running.place = place as usize;
    }

    fn store_element(&mut self, global: u32, value: u64, place: u32)
        requires { HasWords self.old }
        ensures { HasStepped self.old (uses (code_of self.old) (state_of self.old) (Use.StoresElement global place) value (quietly (state_of self.old))) self.new }
    {
        let i = self.running.operand(0);
        if i < self.memory.len(global) as u64 {
            self.store(global, i as usize, value, place);
        } else {
            self.trap(TrapKind::Index);
        }
    }

    /// Uses a value, where it isn't returned.
    fn use_value(&mut self, use_of: Use, value: u64)
        requires words { HasWords self.old }
        requires allows { CanUse self.old use_of }
        requires left { 0 < self.old.kept.left }
        ensures { (back : Shown) → HasStepped self.old (uses (code_of self.old) (state_of self.old) use_of value back) self.new }
    {
        match use_of {
            Use::Keeps => self.go_to(self.running.place + 1),
            Use::Drops(place) | Use::Assigns(_, place) => self.go_to(place as usize),
            Use::StoresScalar(global, place) => self.store(global, 0, value, place),
            Use::StoresElement(global, place) => self.store_element(global, value, place),
            Use::Puts(place) => self.output(value, place),
            Use::Chooses(first, second) => {
                self.go_to((if value == 0 { second } else { first }) as usize)
            }
            Use::Returns => unreachable!(),
            Use::Halts => self.halt(),
        }
    }

    /// Goes back to the last caller with a value, and tells what becomes of it there.
    fn resume(&mut self, value: u64) -> Option<Use>
        requires ready { IsReady self.old }
        requires called { IsCalled self.old }
        ensures { HasResumed self.old value result self.new }
    {
        let caller = self.callers.pop()?;
        let func = self.running.func;
        let left = self.operation_of(func);
        self.kept.leave(left);
        self.running = caller;
        let step = self.current()?;
        self.running.take(step.use_of, step.open_below, value);
        Some(step.use_of)
    }

    /// Returns a value, also on through callers that return it in turn.
    fn ret(&mut self, value: u64)
        requires ready { IsReady self.old }
        requires called { IsCalled self.old }
        requires left { 0 < self.old.kept.left }
        ensures { HasStepped self.old (given_back (code_of self.old) (state_of self.old) self.old.running.func value (state_of self.old).callers) self.new }
    {
        let Some(use_of) = self.resume(value) else {
            unreachable!()
        };
        match use_of {
            Use::Returns => self.ret(value),
            _ => self.use_value(use_of, value),
        }
    }

    /// Uses the value of the step that is made.
    fn finish(&mut self, step: Step, value: u64)
        requires ready { IsReady self.old }
        requires there { StandsAt self.old step }
        requires left { 0 < self.old.kept.left }
        ensures { HasStepped self.old (uses_here (code_of self.old) (state_of self.old) step value) self.new }
    {
        match step.use_of {
            Use::Returns => self.ret(value),
            _ => self.use_value(step.use_of, value),
        }
    }

    /// Holds the value of a node, and uses it.
    fn give(&mut self, step: Step, value: u64)
        requires ready { IsReady self.old }
        requires there { StandsAt self.old step }
        requires left { 0 < self.old.kept.left }
        ensures { HasStepped self.old (gives (code_of self.old) (state_of self.old) step value) self.new }
    {
        self.running.take(step.use_of, step.open_below, value);
        self.finish(step, value);
    }

    fn compute(&mut self, step: Step, outcome: Option<u64>)
        requires ready { IsReady self.old }
        requires there { StandsAt self.old step }
        requires left { 0 < self.old.kept.left }
        ensures { HasStepped self.old (gives_if (code_of self.old) (state_of self.old) step outcome) self.new }
    {
        match outcome {
            Some(value) => self.give(step, value),
            None => self.trap(TrapKind::DivZero),
        }
    }

    fn read(&mut self, step: Step, global: u32, i: usize)
        requires ready { IsReady self.old }
        requires there { StandsAt self.old step }
        requires held { i < length (get_or self.old.memory global []) }
        requires left { 0 < self.old.kept.left }
        ensures { HasStepped self.old (reads_global (code_of self.old) (state_of self.old) step global i) self.new }
    {
        let value = self.memory.get(global, i);
        self.give(step, value);
    }

    fn read_element(&mut self, step: Step, global: u32, i: u64)
        requires ready { IsReady self.old }
        requires there { StandsAt self.old step }
        requires left { 0 < self.old.kept.left }
        ensures { HasStepped self.old (if nat_lt i (length_of (code_of self.old) global) then reads_global (code_of self.old) (state_of self.old) step global i else traps_with (state_of self.old) Index) self.new }
    {
        if i < self.memory.len(global) as u64 {
            self.read(step, global, i as usize);
        } else {
            self.trap(TrapKind::Index);
        }
    }

    fn input(&mut self, step: Step)
        requires ready { IsReady self.old }
        requires there { StandsAt self.old step }
        requires left { 0 < self.old.kept.left }
        ensures { HasStepped self.old (gives_input (code_of self.old) (state_of self.old) step self.old.inputs.now) self.new }
    {
        match self.inputs.split_first() {
            Some((value, rest)) => {
                self.inputs = rest;
                self.give(step, value.cast_unsigned());
            }
            None => self.trap(TrapKind::InputEnd),
        }
    }

    /// Calls a function with some of the operands.
    fn enter(&mut self, func: u32, below: u8, count: u8)
        ensures { HasStepped self.old (enters (code_of self.old) (state_of self.old) func (arguments (operands_of self.old.running) below count)) self.new }
    {
        if self.callers.len() >= MOST_CALLERS {
            self.trap(TrapKind::Depth);
            return;
        }
        let callee = Activation {
            func,
            place: 0,
            locals: self.running.pass(below, count),
            operands: [0; 256],
        };
        let caller = mem::replace(&mut self.running, callee);
        self.callers.push(caller);
        let entered = self.operation_of(func);
        self.kept.enter(entered);
    }

    fn act(&mut self, step: Step)
        requires ready { IsReady self.old }
        requires there { StandsAt self.old step }
        requires left { 0 < self.old.kept.left }
        ensures { HasStepped self.old (acts (code_of self.old) (state_of self.old) step (operands_of self.old.running) step.open_below step.act) self.new }
    {
        let operand = self.running.operand(step.open_below as usize);
        match step.act {
            Act::Begins | Act::ReachesEnd => self.finish(step, 0),
            Act::Decides => self.finish(step, operand),
            Act::Literal(value) => self.give(step, value),
            Act::ReadsLocal(x) => {
                let value = self.running.local(x);
                self.give(step, value);
            }
            Act::ReadsScalar(global) => self.read(step, global, 0),
            Act::ReadsElement(global) => self.read_element(step, global, operand),
            Act::Calls(func, count) => self.enter(func, step.open_below, count),
            Act::TakesInput => self.input(step),
            Act::Negates => self.give(step, 0_u64.wrapping_sub(operand)),
            Act::Operates(operator) => {
                let right = self.running.operand(step.open_below as usize + 1);
                self.compute(step, operated(operator, operand, right));
            }
        }
    }

    /// Makes a step.
    pub fn step(&mut self)
        requires ready { IsReady self.old }
        requires going { is_some (finish_of self.old.end) ≡ false }
        requires left { 0 < self.old.kept.left }
        ensures { HasStepped self.old (lang_step (code_of self.old) (state_of self.old)) self.new }
    {
        if let Some(step) = self.current() {
            self.act(step);
        }
    }
}
