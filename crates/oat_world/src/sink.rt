ghost use Rattle.std.specs.Prelude.{◌≤◌, ℕ, Option, List};
ghost use Rattle.oat_world.specs.Outside.{Puts};

/// Why nothing was put.
#[derive(Clone, Copy)]
pub enum SinkFault {
    /// The sink can take nothing.
    Failed,
    /// The sink found no memory for the bytes.
    Memory,
}

/// A place to put bytes, one piece after another.
///
/// It means the bytes put so far, where that is told, and a count of faults
/// that never falls, and rises at the puts that answer `Failed` alone.
pub trait Sink {
    ghost told: { Self → Option (List ℕ) };

    ghost faults: { Self → ℕ };

    /// Takes a front of the piece, of at least one byte unless the piece is
    /// empty, and answers how many bytes it took.
    fn put(&mut self, piece: &[u8]) -> Result<usize, SinkFault>
        ensures faults_stay { faults self.old ≤ faults self.new }
        ensures puts { Puts piece.now (told self.old) (told self.new) (faults self.old) (faults self.new) result };
}
