//! What is kept of a run while it is made.
ghost use Rattle.std.specs.Prelude.{◌≡◌, ◌+◌, ◌<◌, ◌≤◌, IfOk};
ghost use Rattle.oat_langrun.specs.Recording.{
  entry_added,
  exit_added,
  nothing_recorded,
  output_added,
};

use std::alloc::{AllocError, Global};
use std::marker::Model;

/// The outputs of a run, and whether the first call of one operation has begun and has completed.
#[derive(Drop)]
pub struct Record {
    op: u16,
    begun: bool,
    completed: bool,
    outputs: Vec<i64>,
    /// For how many more outputs there is room.
    left: u32,
}

impl Model for Record {
    ghost use Rattle.std.specs.Prelude.{◌≤◌, ◌+◌, vec_len, vec_capacity};
    ghost use Rattle.oat_langrun.specs.Recording.{RoomyRecord};

    ghost Value = { RoomyRecord };

    ghost view = { λ r. record {
      recorded = record { op = r.op; begun = r.begun; completed = r.completed; outputs = r.outputs.items };
      left = r.left;
    } };

    ghost invariant = { λ r. vec_len r.outputs + r.left ≤ vec_capacity r.outputs };
}

impl Record {
    /// An empty record with room for so many steps.
    pub fn with_room(alloc: Global, op: u16, steps: u32) -> Result<Record, AllocError>
        ensures { IfOk result (λ r. r ≡ record { recorded = nothing_recorded op; left = steps }) }
    {
        Ok(Record {
            op,
            begun: false,
            completed: false,
            outputs: Vec::with_capacity(alloc, steps as usize)?,
            left: steps,
        })
    }

    pub fn output(&mut self, value: i64)
        requires { 0 < self.old.left }
        ensures recorded { self.new.recorded ≡ output_added self.old.recorded value }
        ensures left { self.new.left + 1 ≡ self.old.left }
    {
        self.outputs.push_reserved(value);
        self.left -= 1;
    }

    /// A call, with the number of the operation that is called, if it is one.
    pub fn enter(&mut self, entered: Option<u16>)
        ensures recorded { self.new.recorded ≡ entry_added self.old.recorded entered }
        ensures left { self.new.left ≡ self.old.left }
    {
        if let Some(op) = entered {
            self.begun |= op == self.op;
        }
    }

    /// A return, with the number of the operation that is left, if it is one.
    pub fn leave(&mut self, left: Option<u16>)
        ensures recorded { self.new.recorded ≡ exit_added self.old.recorded left }
        ensures left { self.new.left ≡ self.old.left }
    {
        if let Some(op) = left {
            self.completed |= self.begun && op == self.op;
        }
    }

    pub fn outputs(&self) -> &[i64]
        ensures { result.now ≡ self.now.recorded.outputs }
    {
        self.outputs.as_slice()
    }

    /// Whether the first call has completed.
    pub fn completed(&self) -> bool
        ensures { result ≡ self.now.recorded.completed }
    {
        self.completed
    }
}
