ghost use Rattle.std.specs.Prelude.{◌≡◌, ◌≢◌, ◌≤◌, None, Err};
ghost use Rattle.std.specs.Io.KnownBytes.{WriteAppends};
ghost use Rattle.oat_world.specs.Outside.{Puts};

use crate::sink::{Sink, SinkFault};
use std::io;
use std::marker::Model;

/// A writer of the system, which doesn't tell the bytes put.
///
/// Each `Err` of the writer raises the count of faults, also that of an
/// interrupted write, and the put then fails: nothing is tried again. It never
/// flushes the writer.
#[derive(Drop)]
pub struct RealSink<W> {
    to: W,
    faults: u64,
}

impl<W> Model for RealSink<W> {
    ghost use Rattle.oat_world.specs.RealSink.{Onto};

    ghost Value = { Onto W };

    ghost view = { λ sink. record { writer = sink.to; faults = sink.faults } };
}

impl<W: io::Write + Drop> RealSink<W> {
    pub fn new(to: W) -> Self
        ensures told { ⟦<RealSink<W> as Sink>⟧.told result ≡ None }
        ensures faults { ⟦<RealSink<W> as Sink>⟧.faults result ≡ 0 }
        ensures onto { result.writer ≡ to }
    {
        RealSink { to, faults: 0 }
    }
}

impl<W: io::Write + Drop> Sink for RealSink<W> {
    ghost told = { λ _. None };

    ghost faults = { λ sink. sink.faults };

    fn put(&mut self, piece: &[u8]) -> Result<usize, SinkFault>
        ensures faults_stay { self.old.faults ≤ self.new.faults }
        ensures puts { Puts piece.now None None self.old.faults self.new.faults result }
        ensures writes { WriteAppends (W.contents self.old.writer) (W.contents self.new.writer) result piece.now }
        ensures no_memory { result ≢ Err SinkFault.Memory }
    {
        match self.to.write(piece) {
            Ok(count) if count > 0 || piece.is_empty() => Ok(count),
            _ => {
                self.faults = self.faults.saturating_add(1);
                Err(SinkFault::Failed)
            }
        }
    }
}
