ghost use Rattle.std.specs.Prelude.{◌≡◌, ◌≤◌, IfOk};
ghost use Rattle.oat_tree.specs.Rules.{IsLang};
ghost use Rattle.oat_tree.specs.Seen.{seen_tree};
ghost use Rattle.oat_langrun.specs.LangRuns.{completed_so_far, end_so_far, first_run, outputs_so_far};
ghost use Rattle.oat_langrun.specs.Steps.{routines_of};

use crate::activation::Activation;
use crate::callers::Callers;
use crate::interpreter::Interpreter;
use crate::memory::Memory;
use crate::record::Record;
use crate::routine::{Routine, main_number};
use oat_ir::SourceEnd;
use oat_list::Listed;
use oat_tree::Item;
use std::alloc::{AllocError, Global};
use std::marker::Model;

/// A text on its way through its run on some inputs, with what that shows of the calls of one operation.
#[derive(Drop)]
pub struct LangRun<'a> {
    items: &'a [Item],
    inputs: &'a [i64],
    op: u16,
    steps: u64,
    made: u64,
    interpreter: Interpreter<'a>,
}

impl<'a> Model for LangRun<'a> {
    ghost use Rattle.std.specs.Coded.{codes};
    ghost use Rattle.oat_tree.specs.contracts.expr.Expr as e;
    ghost use Rattle.oat_tree.specs.contracts.stmt.Stmt as s;
    ghost use Rattle.oat_langrun.specs.LangRuns.{RunSoFar};
    ghost use Rattle.oat_langrun.specs.Made.{HasReached};

    ghost Value = { RunSoFar };

    ghost coded = { Prim.hlevel (codes, e.the_row.coded, s.the_row.coded) };

    ghost view = { λ run. record {
      items = run.items.now;
      inputs = run.inputs.now;
      op = run.op;
      steps = run.steps;
      made = run.made;
    } };

    ghost invariant = { λ run. HasReached run.interpreter (record {
      items = run.items.now;
      inputs = run.inputs.now;
      op = run.op;
      steps = run.steps;
      made = run.made;
    }) };
}

impl<'a> LangRun<'a> {
    /// Takes all memory of a run of at most so many steps, given the steps of its functions.
    pub fn start(
        alloc: Global,
        items: &'a [Item],
        routines: Listed<Routine>,
        inputs: &'a [i64],
        op: u16,
        steps: u64,
    ) -> Result<LangRun<'a>, AllocError>
        requires lang { IsLang (seen_tree items.now) }
        requires listed { routines ≡ (routines_of (seen_tree items.now)).routines }
        requires few { steps ≤ 4194304 }
        ensures { IfOk result (λ run. run ≡ first_run items.now inputs.now op steps) }
    {
        let running = Activation {
            func: main_number(routines.as_slice()),
            place: 0,
            locals: [0; 256],
            operands: [0; 256],
        };
        let interpreter = Interpreter {
            items,
            routines,
            running,
            callers: Callers::with_room(alloc)?,
            memory: Memory::at_start(alloc, items)?,
            inputs,
            end: SourceEnd::OutOfSteps,
            kept: Record::with_room(alloc, op, steps as u32)?,
        };
        Ok(LangRun {
            items,
            inputs,
            op,
            steps,
            made: 0,
            interpreter,
        })
    }

    /// Makes the run up to its end or the last of its steps, and takes no memory. A second call answers the same and changes nothing.
    pub fn run(&mut self) -> SourceEnd
        ensures whole { self.new ≡ record self.old { made = self.old.steps } }
        ensures ended { result ≡ end_so_far self.new }
    {
        for _ in self.made..self.steps {
            if self.interpreter.has_ended() {
                break;
            }
            self.interpreter.step();
        }
        self.made = self.steps;
        self.interpreter.end
    }

    /// The outputs so far.
    pub fn outputs(&self) -> &[i64]
        ensures { result.now ≡ outputs_so_far self.now }
    {
        self.interpreter.kept.outputs()
    }

    /// Whether the first call of the operation has completed.
    pub fn completed(&self) -> bool
        ensures { result ≡ completed_so_far self.now }
    {
        self.interpreter.kept.completed()
    }
}
