ghost use Rattle.std.specs.Prelude.{◌≡◌, ◌≢◌, ◌≤◌, ◌<◌, ◌↔◌, min, [], Some, length, IfOk, Err};
ghost use Rattle.std.specs.Vec.{vec_allocator};
ghost use Rattle.oat_world.specs.Outside.{Puts};
ghost use Rattle.oat_world.specs.FailingCalls.{IsDue, calls_after};

use crate::failing_calls::FailingCalls;
use crate::sink::{Sink, SinkFault};
use std::marker::Model;

/// A sink in memory, of which chosen puts fail.
#[derive(Drop)]
pub struct MemorySink {
    bytes: Vec<u8>,
    most: usize,
    puts: FailingCalls,
    faults: u64,
}

impl Model for MemorySink {
    ghost use Rattle.std.specs.Prelude.{◌<◌};
    ghost use Rattle.std.specs.Vec.{vec_allocator};
    ghost use Rattle.oat_world.specs.MemorySink.{HeldBytes};

    ghost Value = { HeldBytes };

    ghost view = { λ held. record { bytes = held.bytes.items; allocator = vec_allocator held.bytes; most = held.most; puts = held.puts; faults = held.faults } };

    ghost invariant = { λ held. 0 < held.most };
}

impl MemorySink {
    /// Takes at most `most` bytes a put. A put fails where its number among
    /// all puts, counted from 0, is one of `failing`, whose allocator holds
    /// the bytes too.
    pub fn new(most: usize, failing: Vec<u64>) -> Self
        requires { 0 < most }
        ensures told { ⟦<MemorySink as Sink>⟧.told result ≡ Some [] }
        ensures faults { ⟦<MemorySink as Sink>⟧.faults result ≡ 0 }
        ensures allocator { result.allocator ≡ vec_allocator failing }
        ensures most { result.most ≡ most }
        ensures failing { result.puts.failing ≡ failing.items }
        ensures first { result.puts.next ≡ Some 0 }
    {
        MemorySink {
            bytes: Vec::new(*failing.allocator()),
            most,
            puts: FailingCalls::new(failing),
            faults: 0,
        }
    }

    /// The bytes put so far.
    pub fn held(&self) -> &[u8]
        ensures { ⟦<MemorySink as Sink>⟧.told self.now ≡ Some result.now }
    {
        self.bytes.as_slice()
    }
}

impl Sink for MemorySink {
    ghost told = { λ held. Some held.bytes };

    ghost faults = { λ held. held.faults };

    fn put(&mut self, piece: &[u8]) -> Result<usize, SinkFault>
        ensures faults_stay { self.old.faults ≤ self.new.faults }
        ensures puts { Puts piece.now (Some self.old.bytes) (Some self.new.bytes) self.old.faults self.new.faults result }

        // It takes what its most allows, counts its puts, and fails at just those that are due.
        ensures takes { IfOk result (λ count. count ≡ min (length piece.now) self.old.most) }
        ensures allocator_stays { self.new.allocator ≡ self.old.allocator }
        ensures most_stays { self.new.most ≡ self.old.most }
        ensures counted { self.new.puts ≡ calls_after self.old.puts }
        ensures due { (result ≡ Err SinkFault.Failed) ↔ IsDue self.old.puts }
        ensures fault_only { self.new.faults ≢ self.old.faults → IsDue self.old.puts }
    {
        if self.puts.next_fails() {
            self.faults = self.faults.saturating_add(1);
            return Err(SinkFault::Failed);
        }
        let count = piece.len().min(self.most);
        match self.bytes.extend_from_slice(&piece[..count]) {
            Ok(()) => Ok(count),
            Err(_) => Err(SinkFault::Memory),
        }
    }
}
