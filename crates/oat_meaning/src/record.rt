//! What is kept of a run while it is made.
ghost use Rattle.std.specs.Prelude.{◌≡◌, ◌+◌, ◌<◌, ◌≤◌, ℤ, true, false, IfOk, length, option_map};
ghost use Rattle.oat_meaning.specs.Recording.{
  calls_end,
  completed,
  ends_path,
  nothing_recorded,
  call_added,
  edge_added,
  output_added,
  read_added,
  return_added,
};

use oat_ir::{CriticalLoad, SourceEdge};
use std::alloc::{AllocError, Global};
use std::marker::Model;

/// The outputs of a run, and the edges and loads of all calls of one operation, one call behind the other.
///
/// The path of a call that has completed ends behind its edge `End`.
#[derive(Drop)]
pub struct Record {
    op: u16,
    /// Whether a call of the operation is on its way.
    inside: bool,
    outputs: Vec<i64>,
    edges: Vec<SourceEdge>,
    loads: Vec<CriticalLoad>,
    /// Where the loads end of each call that has completed.
    load_ends: Vec<u32>,
    /// For how many more steps there is room.
    left: u32,
}

impl Model for Record {
    ghost use Rattle.std.specs.Prelude.{vec_len, vec_capacity};
    ghost use Rattle.oat_meaning.specs.Recording.{RoomyRecord, TakesEnds, TakesMore, ends_behind, steps_of_calls};

    ghost Value = { RoomyRecord };

    ghost view = { λ r. record {
      recorded = record { op = r.op; inside = r.inside; outputs = r.outputs.items; edges = r.edges.items; path_ends = ends_behind 0 r.edges.items; loads = r.loads.items; load_ends = r.load_ends.items };
      left = r.left;
    } };

    ghost invariant = { λ r.
        TakesMore r.left (vec_len r.outputs) (vec_capacity r.outputs)
        × TakesMore r.left (vec_len r.edges) (vec_capacity r.edges)
        × TakesMore r.left (vec_len r.loads) (vec_capacity r.loads)
        × TakesEnds r.left (steps_of_calls (vec_len r.load_ends) r.inside) (vec_capacity r.load_ends) };
}

fn ends_path(edge: &SourceEdge) -> bool
    ensures { result ≡ ends_path edge.now }
{
    matches!(edge, SourceEdge::End { .. })
}

impl Record {
    /// An empty record with room for so many steps.
    pub fn with_room(alloc: Global, op: u16, steps: u32) -> Result<Record, AllocError>
        requires { steps ≤ 4194304 }
        ensures { IfOk result (λ r. r ≡ record { recorded = nothing_recorded op; left = steps }) }
    {
        let room = steps as usize;
        Ok(Record {
            op,
            inside: false,
            outputs: Vec::with_capacity(alloc, room)?,
            edges: Vec::with_capacity(alloc, room)?,
            loads: Vec::with_capacity(alloc, room)?,
            load_ends: Vec::with_capacity(alloc, room / 2)?,
            left: steps,
        })
    }

    pub fn output(&mut self, value: i64)
        requires { 0 < self.old.left }
        ensures recorded { self.new.recorded ≡ output_added self.old.recorded value }
        ensures left { self.new.left + 1 ≡ self.old.left }
    {
        self.outputs.push_reserved(value);
        self.left -= 1;
    }

    /// What was loaded, and from which cell, if it was from one.
    pub fn load(&mut self, cell: Option<u32>, value: u64)
        requires { 0 < self.old.left }
        ensures recorded { self.new.recorded ≡ read_added self.old.recorded cell value }
        ensures left { self.new.left + 1 ≡ self.old.left }
    {
        if let Some(cell) = cell
            && self.inside
        {
            let value = value.cast_signed();
            self.loads.push_reserved(CriticalLoad { cell, value });
        }
        self.left -= 1;
    }

    /// An edge that doesn't end a path.
    #[tactic(auto, using(crate::proofs::Ending::edge_ends_nothing))]
    pub fn edge(&mut self, edge: SourceEdge)
        requires room { 0 < self.old.left }
        requires goes_on { ends_path edge ≡ false }
        ensures recorded { self.new.recorded ≡ edge_added self.old.recorded edge }
        ensures left { self.new.left + 1 ≡ self.old.left }
    {
        if self.inside {
            self.edges.push_reserved(edge);
        }
        self.left -= 1;
    }

    /// A call, and the number of the operation that is called, if it is one.
    #[tactic(auto, using(crate::proofs::Ending::edge_ends_nothing))]
    pub fn call(&mut self, edge: SourceEdge, entered: Option<u16>)
        requires room { 0 < self.old.left }
        requires goes_on { ends_path edge ≡ false }
        ensures recorded { self.new.recorded ≡ call_added self.old.recorded edge entered }
        ensures left { self.new.left + 1 ≡ self.old.left }
    {
        if self.inside {
            self.edges.push_reserved(edge);
        } else if let Some(op) = entered {
            self.inside = op == self.op;
        }
        self.left -= 1;
    }

    // The operation's call has completed.
    #[tactic(auto, using(crate::proofs::Ending::end_ends_path))]
    fn complete(&mut self)
        requires room { 0 < self.old.left }
        requires inside { self.old.recorded.inside ≡ true }
        ensures recorded { self.new.recorded ≡ completed self.old.recorded }
        ensures left { self.new.left + 1 ≡ self.old.left }
    {
        self.edges.push_reserved(SourceEdge::End { op: self.op });
        self.load_ends.push_reserved(self.loads.len() as u32);
        self.inside = false;
        self.left -= 1;
    }

    /// A return, and the number of the operation that is left, if it is one.
    pub fn ret(&mut self, edge: SourceEdge, left: Option<u16>)
        requires room { 0 < self.old.left }
        requires goes_on { ends_path edge ≡ false }
        ensures recorded { self.new.recorded ≡ return_added self.old.recorded edge left }
        ensures left { self.new.left + 1 ≡ self.old.left }
    {
        match left {
            Some(op) if self.inside && op == self.op => self.complete(),
            _ => self.edge(edge),
        }
    }

    pub fn outputs(&self) -> &[i64]
        ensures { result.now ≡ self.now.recorded.outputs }
    {
        self.outputs.as_slice()
    }

    /// The edges of all calls.
    pub fn edges(&self) -> &[SourceEdge]
        ensures { result.now ≡ self.now.recorded.edges }
    {
        self.edges.as_slice()
    }

    /// The loads of all calls.
    pub fn loads(&self) -> &[CriticalLoad]
        ensures { result.now ≡ self.now.recorded.loads }
    {
        self.loads.as_slice()
    }

    /// How many calls have completed.
    pub fn calls(&self) -> u32
        ensures { result ≡ length self.now.recorded.load_ends }
    {
        self.load_ends.len() as u32
    }

    /// Where the paths of the first so many calls end.
    pub fn path_end(&self, calls: usize) -> usize
        ensures { result ≡ calls_end self.now.recorded.path_ends calls }
    {
        if calls == 0 {
            return 0;
        }
        let mut due = calls;
        for (place, edge) in self.edges.as_slice().iter().enumerate() {
            if ends_path(edge) {
                if due == 1 {
                    return place + 1;
                }
                due -= 1;
            }
        }
        0
    }

    /// Where the loads of the first so many calls end.
    pub fn load_end(&self, calls: usize) -> usize
        ensures { result ≡ calls_end self.now.recorded.load_ends calls }
    {
        if calls == 0 {
            return 0;
        }
        match self.load_ends.as_slice().get(calls - 1) {
            Some(end) => *end as usize,
            None => 0,
        }
    }
}
