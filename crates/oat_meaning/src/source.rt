ghost use Rattle.std.specs.Prelude.{◌≡◌, ◌<◌, ◌≤◌, length, slice_range, IfOk};
ghost use Rattle.oat_meaning.specs.SourceRun.{
  calls_so_far,
  completed_so_far,
  end_so_far,
  first_run,
  loads_so_far,
  outputs_so_far,
  path_so_far,
};

use crate::interpreter::Interpreter;
use oat_check::Checked;
use oat_ir::{CriticalLoad, SourceEdge, SourceEnd};
use std::alloc::{AllocError, Global};
use std::marker::Model;

fn part<T>(items: &[T], start: usize, end: usize) -> &[T]
    requires ordered { start ≤ end }
    requires inside { end ≤ length items.now }
    ensures { result.now ≡ slice_range items.now start end }
{
    &items[start..end]
}

/// A program on its way through its run on some inputs, with what that shows of the calls of one operation.
#[derive(Drop)]
pub struct Source<'a> {
    checked: &'a Checked,
    inputs: &'a [i64],
    op: u16,
    steps: u64,
    made: u64,
    interpreter: Interpreter<'a>,
}

impl<'a> Model for Source<'a> {
    ghost use Rattle.oat_meaning.specs.SourceRun.{SourceRun};
    ghost use Rattle.oat_meaning.specs.Made.{HasReached};

    ghost Value = { SourceRun };

    ghost view = { λ source. record {
      program = source.checked.now;
      inputs = source.inputs.now;
      op = source.op;
      steps = source.steps;
      made = source.made;
    } };

    ghost invariant = { λ source. HasReached source.interpreter (record {
      program = source.checked.now;
      inputs = source.inputs.now;
      op = source.op;
      steps = source.steps;
      made = source.made;
    }) };
}

impl<'a> Source<'a> {
    /// Takes all memory of a run of at most so many steps: its outputs, the edges of its paths and its loads from cells could be one for each step.
    pub fn start(
        alloc: Global,
        checked: &'a Checked,
        inputs: &'a [i64],
        op: u16,
        steps: u64,
    ) -> Result<Source<'a>, AllocError>
        requires { steps ≤ 4194304 }
        ensures { IfOk result (λ source. source ≡ first_run checked.now inputs.now op steps) }
    {
        let program = checked.program();
        let interpreter = Interpreter::at_start(alloc, program, inputs, op, steps as u32)?;
        Ok(Source {
            checked,
            inputs,
            op,
            steps,
            made: 0,
            interpreter,
        })
    }

    /// Makes the run up to its end or the last of its steps, and takes no memory. A second call answers the same and changes nothing.
    pub fn run(&mut self) -> SourceEnd
        ensures whole { self.new ≡ record self.old { made = self.old.steps } }
        ensures ended { result ≡ end_so_far self.new }
    {
        for _ in self.made..self.steps {
            if self.interpreter.has_ended() {
                break;
            }
            self.interpreter.step();
        }
        self.made = self.steps;
        self.interpreter.end
    }

    /// The outputs so far.
    pub fn outputs(&self) -> &[i64]
        ensures { result.now ≡ outputs_so_far self.now }
    {
        self.interpreter.kept.outputs()
    }

    /// Whether the first call of the operation has completed.
    pub fn completed(&self) -> bool
        ensures { result ≡ completed_so_far self.now 0 }
    {
        self.interpreter.kept.calls() > 0
    }

    /// The path of the first call of the operation; where it hasn't completed, as far as it has come.
    pub fn path(&self) -> &[SourceEdge]
        ensures { result.now ≡ path_so_far self.now 0 }
    {
        if self.completed() {
            self.path_of(0)
        } else {
            self.interpreter.kept.edges()
        }
    }

    /// What the first call of the operation has loaded from cells.
    pub fn loads(&self) -> &[CriticalLoad]
        ensures { result.now ≡ loads_so_far self.now 0 }
    {
        if self.completed() {
            self.loads_of(0)
        } else {
            self.interpreter.kept.loads()
        }
    }

    /// How many calls of the operation have completed. They are counted from 0.
    pub fn calls_done(&self) -> u32
        ensures { result ≡ calls_so_far self.now }
    {
        self.interpreter.kept.calls()
    }

    /// The path of a call of the operation that has completed.
    pub fn path_of(&self, call: u32) -> &[SourceEdge]
        requires { call < calls_so_far self.now }
        ensures { result.now ≡ path_so_far self.now call }
    {
        let kept = &self.interpreter.kept;
        let before = call as usize;
        part(
            kept.edges(),
            kept.path_end(before),
            kept.path_end(before + 1),
        )
    }

    /// What a call of the operation that has completed loaded from cells.
    pub fn loads_of(&self, call: u32) -> &[CriticalLoad]
        requires { call < calls_so_far self.now }
        ensures { result.now ≡ loads_so_far self.now call }
    {
        let kept = &self.interpreter.kept;
        let before = call as usize;
        part(
            kept.loads(),
            kept.load_end(before),
            kept.load_end(before + 1),
        )
    }
}
