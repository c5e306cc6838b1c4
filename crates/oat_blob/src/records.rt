ghost use Rattle.std.specs.Prelude.{◌≡◌, ◌<◌, ℕ, Bool, List, length, slice_get, Some};

/// A list of branch bits and a list of indirect targets, each of fewer than 2^32 items.
pub trait Records {
    ghost bits: { Self → List Bool };

    ghost targets: { Self → List ℕ };

    fn bit_count(&self) -> u32
        ensures { result ≡ length (bits self.now) };

    fn bit(&self, i: u32) -> bool
        requires { i < length (bits self.now) }
        ensures { slice_get (bits self.now) i ≡ Some result };

    fn target_count(&self) -> u32
        ensures { result ≡ length (targets self.now) };

    fn target(&self, i: u32) -> u64
        requires { i < length (targets self.now) }
        ensures { slice_get (targets self.now) i ≡ Some result };
}
