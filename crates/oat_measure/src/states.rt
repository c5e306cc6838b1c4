//! The three states of a measurement. Each transition takes the state that it leaves.

ghost use Rattle.std.specs.Prelude.{◌≡◌, ◌+◌, ◌≤◌, ℕ, [], ◌∷◌, ◌++◌, length, not, nat_eq, IsTrue, IfOk, Ok, Some};
ghost use Rattle.oat_measure.specs.Measurement.{booted, measured, unmeasured, measuring, sealed};
ghost use Rattle.oat_measure.specs.declared.call.MonitorCall.TheVariants as svc;
ghost use Rattle.oat_measure.specs.Monitored.{Keeps, cells_of, state_at};
ghost use Rattle.oat_measure.specs.Shelving.{IsFirstWindow, body_head, body_of, is_due, next_opening, reopened};
ghost use Rattle.oat_measure.specs.Transitions.{begun_shown, begun_state, BegunUnchanged, ended_shown, ended_state, EndedUnchanged};

use crate::cells::{define, unsound};
use crate::opening::Opening;
use crate::shelf::Shelf;
use oat_blob::{BodyHead, PackedBits, Violation};
use oat_chain::{Chain, window_head};
use std::alloc::{AllocError, Global};
use std::marker::Model;

/// Before the window.
#[derive(Drop)]
pub struct Unmeasured {
    opening: Opening,
    cells: Vec<u64>,
    bits: PackedBits,
    targets: Vec<u64>,
}

impl Model for Unmeasured {
    ghost use Rattle.std.specs.Prelude.{◌≤◌, ◌+◌, ◌-◌, [], length, min, None, vec_len, vec_capacity};
    ghost use Rattle.oat_measure.specs.Monitored.{Monitored};

    ghost Value = { Monitored };

    ghost view = { λ u. record {
      opening = u.opening;
      cells = u.cells.items;
      hash = [];
      bits = u.bits.bits;
      targets = u.targets.items;
      violation = None;
      spare_bits = u.bits.spare;
      spare_targets = vec_capacity u.targets - vec_len u.targets;
      room = min (length u.bits.bits + u.bits.spare) (vec_capacity u.targets);
    } };

    ghost invariant = { λ u. length u.cells.items ≤ 65536 };
}

/// Inside the window.
#[derive(Drop)]
pub struct Measuring {
    opening: Opening,
    cells: Vec<u64>,
    chain: Chain,
    bits: PackedBits,
    targets: Vec<u64>,
    violation: Option<Violation>,
}

impl Model for Measuring {
    ghost use Rattle.std.specs.Prelude.{◌+◌, ◌-◌, length, min, vec_len, vec_capacity};
    ghost use Rattle.oat_measure.specs.Monitored.{Monitored};
    ghost use Rattle.oat_measure.specs.Running.{IsMeasuring};

    ghost Value = { Monitored };

    ghost view = { λ m. record {
      opening = m.opening;
      cells = m.cells.items;
      hash = m.chain.value;
      bits = m.bits.bits;
      targets = m.targets.items;
      violation = m.violation;
      spare_bits = m.bits.spare;
      spare_targets = vec_capacity m.targets - vec_len m.targets;
      room = min (length m.bits.bits + m.bits.spare) (vec_capacity m.targets);
    } };

    ghost invariant = { λ m. IsMeasuring m.opening m.chain m.cells.items };
}

/// Behind the window: the state that gives the body of its blob.
#[derive(Drop)]
pub struct Sealed {
    opening: Opening,
    cells: Vec<u64>,
    hash: [u8; 32],
    bits: PackedBits,
    targets: Vec<u64>,
    violation: Option<Violation>,
}

impl Model for Sealed {
    ghost use Rattle.std.specs.Prelude.{◌≤◌, ◌+◌, ◌-◌, length, min, vec_len, vec_capacity};
    ghost use Rattle.oat_measure.specs.Monitored.{Monitored};

    ghost Value = { Monitored };

    ghost view = { λ s. record {
      opening = s.opening;
      cells = s.cells.items;
      hash = s.hash;
      bits = s.bits.bits;
      targets = s.targets.items;
      violation = s.violation;
      spare_bits = s.bits.spare;
      spare_targets = vec_capacity s.targets - vec_len s.targets;
      room = min (length s.bits.bits + s.bits.spare) (vec_capacity s.targets);
    } };

    ghost invariant = { λ s. length s.cells.items ≤ 65536 };
}

/// What a begin led to.
#[derive(Drop)]
pub enum Begun {
    Opened(Measuring),
    /// A begin of another operation or from another address.
    Other(Unmeasured),
}

/// What an end led to.
#[derive(Drop)]
pub enum Ended {
    Shut(Sealed),
    /// An end of another operation.
    Other(Measuring),
}

impl Unmeasured {
    /// The state of a device that starts, with the cells' first words and the room for as many bits
    /// and as many targets as `room`. Of all calls of the three states this one alone takes memory.
    pub fn boot(
        alloc: Global,
        opening: Opening,
        cells: &[u64],
        room: usize,
    ) -> Result<Unmeasured, AllocError>
        requires first { IsFirstWindow opening }
        requires few { length cells.now ≤ 65536 }
        ensures state { IfOk result (λ made. state_at unmeasured made ≡ booted opening.serial (cells_of cells.now)) }
        ensures opening { IfOk result (λ made. made.opening ≡ opening) }
        ensures bits_fit { IfOk result (λ made. room ≤ made.spare_bits) }
        ensures targets_fit { IfOk result (λ made. room ≤ made.spare_targets) }
        ensures room { IfOk result (λ made. room ≤ made.room) }
    {
        Ok(Unmeasured {
            opening,
            cells: cells.to_vec(alloc)?,
            bits: PackedBits::with_room(alloc, room)?,
            targets: Vec::with_capacity(alloc, room)?,
        })
    }

    /// The begin call of an operation, from the address `at`.
    pub fn begin(self, op: u64, at: u64) -> Begun
        ensures step { measured self.opening (state_at unmeasured self) (Some (svc.Begin op at)) ≡ Ok (begun_state result) }
        ensures keeps { Keeps self (begun_shown result) }
        ensures other { BegunUnchanged self result }
    {
        let opening = self.opening;
        if op != u64::from(opening.op) || at != opening.begin_at {
            return Begun::Other(self);
        }
        let head = window_head(&opening.nonce, opening.op, &opening.digest, opening.serial);
        Begun::Opened(Measuring {
            opening,
            cells: self.cells,
            chain: Chain::start(&head),
            bits: self.bits,
            targets: self.targets,
            violation: None,
        })
    }

    /// A define sets the cell of its number.
    pub fn def(&mut self, cell: u64, value: u64)
        ensures step { measured self.old.opening (state_at unmeasured self.old) (Some (svc.Define cell value)) ≡ Ok (state_at unmeasured self.new) }
        ensures keeps { Keeps self.old self.new }
    {
        define(&mut self.cells, cell, value);
    }
}

impl Measuring {
    /// Records whether a branch is taken.
    pub fn bit(&mut self, bit: bool)
        requires room { 1 ≤ self.old.spare_bits }
        ensures step { (value : ℕ) → bit ≡ not (nat_eq value 0) → measured self.old.opening (state_at measuring self.old) (Some (svc.Bit value)) ≡ Ok (state_at measuring self.new) }
        ensures opening { self.new.opening ≡ self.old.opening }
        ensures spare_bits { self.new.spare_bits + 1 ≡ self.old.spare_bits }
        ensures spare_targets { self.new.spare_targets ≡ self.old.spare_targets }
        ensures room { self.new.room ≡ self.old.room }
    {
        self.bits.push(bit);
    }

    /// Records where an indirect call goes.
    pub fn target(&mut self, address: u64)
        requires room { 1 ≤ self.old.spare_targets }
        ensures step { measured self.old.opening (state_at measuring self.old) (Some (svc.Target address)) ≡ Ok (state_at measuring self.new) }
        ensures opening { self.new.opening ≡ self.old.opening }
        ensures spare_bits { self.new.spare_bits ≡ self.old.spare_bits }
        ensures spare_targets { self.new.spare_targets + 1 ≡ self.old.spare_targets }
        ensures room { self.new.room ≡ self.old.room }
    {
        self.targets.push_reserved(address);
    }

    /// Chains the address to which a function returns.
    pub fn ret(&mut self, address: u64)
        ensures step { measured self.old.opening (state_at measuring self.old) (Some (svc.Return address)) ≡ Ok (state_at measuring self.new) }
        ensures keeps { Keeps self.old self.new }
    {
        self.chain.absorb(address);
    }

    /// A define sets the cell of its number.
    pub fn def(&mut self, cell: u64, value: u64)
        ensures step { measured self.old.opening (state_at measuring self.old) (Some (svc.Define cell value)) ≡ Ok (state_at measuring self.new) }
        ensures keeps { Keeps self.old self.new }
    {
        define(&mut self.cells, cell, value);
    }

    /// A use of another value than the cell's is a violation, of which the first is kept.
    pub fn use_cell(&mut self, cell: u64, value: u64)
        ensures step { measured self.old.opening (state_at measuring self.old) (Some (svc.Use cell value)) ≡ Ok (state_at measuring self.new) }
        ensures keeps { Keeps self.old self.new }
    {
        if self.violation.is_none() {
            self.violation = unsound(&self.cells, cell, value);
        }
    }

    /// The end call of an operation.
    pub fn end(self, op: u64) -> Ended
        ensures step { measured self.opening (state_at measuring self) (Some (svc.End op)) ≡ ended_state result }
        ensures keeps { Keeps self (ended_shown result) }
        ensures other { EndedUnchanged self result }
    {
        if op != u64::from(self.opening.op) {
            return Ended::Other(self);
        }
        Ended::Shut(Sealed {
            opening: self.opening,
            cells: self.cells,
            hash: self.chain.digest(),
            bits: self.bits,
            targets: self.targets,
            violation: self.violation,
        })
    }
}

impl Sealed {
    /// The body of the window's blob, but for its bits and targets.
    pub fn head(&self) -> BodyHead
        ensures { result ≡ body_head self.now.opening (state_at sealed self.now) }
    {
        BodyHead {
            op: self.opening.op,
            nonce: self.opening.nonce,
            digest: self.opening.digest,
            hash: self.hash,
            violation: self.violation,
            serial: self.opening.serial,
        }
    }

    /// The branch bits of the window.
    pub fn bits(&self) -> &PackedBits
        ensures { result.now.bits ≡ self.now.bits }
    {
        &self.bits
    }

    /// The indirect targets of the window.
    pub fn targets(&self) -> &[u64]
        ensures { result.now ≡ self.now.targets }
    {
        self.targets.as_slice()
    }

    /// A define sets the cell of its number.
    pub fn def(&mut self, cell: u64, value: u64)
        ensures step { measured self.old.opening (state_at sealed self.old) (Some (svc.Define cell value)) ≡ Ok (state_at sealed self.new) }
        ensures keeps { Keeps self.old self.new }
    {
        define(&mut self.cells, cell, value);
    }

    /// Whether a further window is due behind this one.
    pub fn is_due(&self) -> bool
        ensures { result ≡ is_due self.now.opening self.now.opening.serial }
    {
        self.opening.is_due()
    }

    /// Puts the window's body on the shelf and stands before the session's next window, with the cells
    /// as they are and all room free again. It takes no memory.
    pub fn next(mut self, shelf: &mut Shelf) -> Unmeasured
        requires due { IsTrue (is_due self.opening self.opening.serial) }
        requires body_fits { 1 ≤ shelf.old.spare_bodies }
        requires bits_fit { length self.bits ≤ shelf.old.spare_bits }
        requires targets_fit { length self.targets ≤ shelf.old.spare_targets }
        ensures state { state_at unmeasured result ≡ reopened (state_at sealed self) }
        ensures opening { result.opening ≡ next_opening self.opening }
        ensures room { result.room ≡ self.room }
        ensures bits_free { self.room ≤ result.spare_bits }
        ensures targets_free { self.room ≤ result.spare_targets }
        ensures bodies { shelf.new.bodies ≡ shelf.old.bodies ++ body_of self.opening (state_at sealed self) ∷ [] }
        ensures spare_bodies { shelf.new.spare_bodies + 1 ≡ shelf.old.spare_bodies }
        ensures spare_bits { shelf.new.spare_bits + length self.bits ≡ shelf.old.spare_bits }
        ensures spare_targets { shelf.new.spare_targets + length self.targets ≡ shelf.old.spare_targets }
    {
        shelf.put(self.head(), &self.bits, self.targets.as_slice());
        self.bits.clear();
        self.targets.clear();
        Unmeasured {
            opening: self.opening.next(),
            cells: self.cells,
            bits: self.bits,
            targets: self.targets,
        }
    }
}
