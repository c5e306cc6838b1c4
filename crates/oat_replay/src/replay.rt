ghost use Rattle.std.specs.Prelude.{◌≡◌, ◌≤◌, vec_len, vec_capacity};
ghost use Rattle.oat_map.specs.Rows.{row_addresses};
ghost use Rattle.oat_map.specs.Walk.{path_limit};

use crate::cause::ReplayCause;
use crate::search::row_at_or_above;
use crate::turn::{Turn, end_turn};
use oat_blob::Records;
use oat_map::{Edge, Map, Row, RowIndex};
use std::alloc::{AllocError, Global};
use std::marker::Brand;
use std::sync::ledger::Blank;

/// The most turns that lead on.
pub const PATH_LIMIT: u32 = 4_194_304;

/// A walk of an operation in the making.
#[derive(Drop)]
pub struct Replay<'a> {
    map: &'a Map,
    index: RowIndex,
    op: u16,
    place: u64,
    /// Where the open calls are to be returned to.
    stack: Vec<u64>,
    turns: u32,
    bits_used: u32,
    targets_used: u32,
    ghost indexed: { index ≡ row_addresses map.now.rows },
    ghost room: { path_limit ≤ vec_capacity stack },
    ghost low: { vec_len stack ≤ turns },
}

impl<'a> Replay<'a> {
    ghost use Rattle.std.specs.Prelude.{ℕ, ◌≡◌, ◌<◌, ◌+◌, Bool, List, [], ◌∷◌, ◌++◌, IsSome, IfOk};
    ghost use Rattle.oat_map.specs.declared.row.Row.TheVariants as rows;
    ghost use Rattle.oat_map.specs.Rows.{IsOrdered, after, next, start};
    ghost use Rattle.oat_replay.specs.StandsBehind.{StandsBehind, TurnsAt, TurnsOn};

    /// A replay at the start of the operation, with room for all its open calls.
    pub fn new(alloc: Global, map: &'a Map, op: u16) -> Result<Replay<'a>, AllocError>
        requires ordered { IsOrdered map.now.rows }
        requires begun { IsSome (start map.now.rows op) }
        ensures { IfOk result (λ replay. (bits : List Bool) (targets : List ℕ) → StandsBehind map.now op bits targets replay []) }
    {
        let place = map.start(op).unwrap();
        let index = RowIndex::of(alloc, map)?;
        let stack = Vec::with_capacity(alloc, PATH_LIMIT as usize)?;
        Ok(Replay {
            map,
            index,
            op,
            place,
            stack,
            turns: 0,
            bits_used: 0,
            targets_used: 0,
        })
    }

    /// Takes one step, as the next row and the records say.
    pub fn turn<R: Records>(&mut self, records: &R) -> Turn
        ensures { TurnsOn (R.bits records.now) (R.targets records.now) self.old self.new result }
    {
        if self.turns >= PATH_LIMIT {
            return Turn::Stuck(ReplayCause::PathLimit);
        }
        let Some(row) = self.row_behind() else {
            return Turn::Stuck(ReplayCause::OffCode);
        };
        match row {
            Row::Jump { at, to } => self.take_jump(at, to),
            Row::Branch { at, taken, other } => self.take_branch(records, at, taken, other),
            Row::Call { at, to } => self.take_call(at, to),
            Row::ICall { at, params } => self.take_indirect_call(records, at, params),
            Row::Ret { at } => self.take_return(at),
            Row::Begin { .. } => Turn::Stuck(ReplayCause::Nested),
            Row::End { at, op } => self.take_end(records, at, op),
            Row::UseCell { .. }
            | Row::DefCell { .. }
            | Row::UseAt { .. }
            | Row::DefAt { .. }
            | Row::Check { .. } => {
                self.go(row.after());
                Turn::Passed
            }
        }
    }

    fn row_behind(&self) -> Option<Row>
        ensures { result ≡ next self.now.map.now.rows self.now.place }
    {
        let rows = self.map.rows.as_slice();
        row_at_or_above::<Brand>(rows, &self.index, self.place, Blank::new(1))
    }

    /// Goes on by one turn.
    fn go(&mut self, to: u64)
        requires { self.old.turns < PATH_LIMIT }
        ensures same_map { self.new.map.now ≡ self.old.map.now }
        ensures same_op { self.new.op ≡ self.old.op }
        ensures place { self.new.place ≡ to }
        ensures same_stack { self.new.stack ≡ self.old.stack }
        ensures turns { self.new.turns ≡ self.old.turns + 1 }
        ensures same_bits { self.new.bits_used ≡ self.old.bits_used }
        ensures same_targets { self.new.targets_used ≡ self.old.targets_used }
    {
        self.place = to;
        self.turns += 1;
    }

    /// Goes along a call that is to be returned to `back`.
    fn enter(&mut self, to: u64, back: u64)
        requires { self.old.turns < PATH_LIMIT }
        ensures same_map { self.new.map.now ≡ self.old.map.now }
        ensures same_op { self.new.op ≡ self.old.op }
        ensures place { self.new.place ≡ to }
        ensures stack { self.new.stack.items ≡ self.old.stack.items ++ back ∷ [] }
        ensures turns { self.new.turns ≡ self.old.turns + 1 }
        ensures same_bits { self.new.bits_used ≡ self.old.bits_used }
        ensures same_targets { self.new.targets_used ≡ self.old.targets_used }
    {
        self.go(to);
        let pushed = self.stack.push(back);
        pushed.unwrap();
    }

    fn take_jump(&mut self, at: u64, to: u64) -> Turn
        requires { self.old.turns < PATH_LIMIT }
        ensures { (bits : List Bool) (targets : List ℕ) → TurnsAt (rows.Jump at to) bits targets self.old self.new result }
    {
        self.go(to);
        Turn::Moved(Edge::Jump { from: at, to })
    }

    fn take_branch<R: Records>(&mut self, records: &R, at: u64, taken: u64, other: u64) -> Turn
        requires { self.old.turns < PATH_LIMIT }
        ensures { TurnsAt (rows.Branch at taken other) (R.bits records.now) (R.targets records.now) self.old self.new result }
    {
        if self.bits_used >= records.bit_count() {
            return Turn::Stuck(ReplayCause::BitsEnd);
        }
        let bit = records.bit(self.bits_used);
        self.bits_used += 1;
        let to = if bit { taken } else { other };
        self.go(to);
        Turn::Moved(Edge::Branch { from: at, bit, to })
    }

    fn take_call(&mut self, at: u64, to: u64) -> Turn
        requires { self.old.turns < PATH_LIMIT }
        ensures { (bits : List Bool) (targets : List ℕ) → TurnsAt (rows.Call at to) bits targets self.old self.new result }
    {
        self.enter(to, Row::Call { at, to }.after());
        Turn::Moved(Edge::Call { from: at, to })
    }

    fn take_indirect_call<R: Records>(&mut self, records: &R, at: u64, params: u8) -> Turn
        requires { self.old.turns < PATH_LIMIT }
        ensures { TurnsAt (rows.ICall at params) (R.bits records.now) (R.targets records.now) self.old self.new result }
    {
        if self.targets_used >= records.target_count() {
            return Turn::Stuck(ReplayCause::TargetsEnd);
        }
        let to = records.target(self.targets_used);
        if !self.map.is_indirect_target(params, to) {
            return Turn::Stuck(ReplayCause::BadTarget(to));
        }
        self.targets_used += 1;
        self.enter(to, Row::ICall { at, params }.after());
        Turn::Moved(Edge::ICall { from: at, to })
    }

    fn take_return(&mut self, at: u64) -> Turn
        requires { self.old.turns < PATH_LIMIT }
        ensures { (bits : List Bool) (targets : List ℕ) → TurnsAt (rows.Ret at) bits targets self.old self.new result }
    {
        let Some(back) = self.stack.pop() else {
            return Turn::Stuck(ReplayCause::Underflow);
        };
        self.go(back);
        Turn::Moved(Edge::Ret { from: at, to: back })
    }

    fn take_end<R: Records>(&self, records: &R, at: u64, ended: u16) -> Turn
        requires { self.now.turns < PATH_LIMIT }
        ensures { TurnsAt (rows.End at ended) (R.bits records.now) (R.targets records.now) self.now self.now result }
    {
        end_turn(
            self.op,
            ended,
            self.stack.len(),
            records.bit_count().saturating_sub(self.bits_used),
            records.target_count().saturating_sub(self.targets_used),
        )
    }
}
