ghost use Rattle.std.specs.Prelude.{◌≡◌, ◌≤◌, ℕ, Option, Some, None, length, IfOk};
ghost use Rattle.oat_world.specs.Outside.{Contents, LoadsTold, LoadsUntold};

use std::alloc::Global;

/// Why a file was not loaded.
#[derive(Clone, Copy)]
pub enum LoadFault {
    /// It isn't there, or a read failed.
    Failed,
    /// It has more bytes than the limit.
    TooLong,
    /// There was no memory for its bytes.
    Memory,
}

/// A source of files by name.
///
/// It means what each name holds, where that is told, a count of faults and a
/// count of bytes taken. Neither count ever falls.
pub trait Files {
    ghost told: { Self → Option Contents };

    ghost faults: { Self → ℕ };

    ghost taken: { Self → ℕ };

    /// The whole content of a name, if it has at most `limit` bytes.
    fn load(&mut self, alloc: Global, name: &str, limit: usize) -> Result<Vec<u8>, LoadFault>
        ensures same { told self.new ≡ told self.old }
        ensures faults_stay { faults self.old ≤ faults self.new }
        ensures taken_stay { taken self.old ≤ taken self.new }
        ensures short { IfOk result (λ bytes. length bytes.items ≤ limit) }
        ensures when_told { (contents : Contents) → told self.old ≡ Some contents
            → LoadsTold (contents name.now) limit (faults self.old) (faults self.new) result }
        ensures when_untold { told self.old ≡ None
            → LoadsUntold limit (faults self.old) (faults self.new) (taken self.old) (taken self.new) result };
}
