ghost use Rattle.std.specs.Prelude.{◌≡◌, ◌↔◌, Some, IsTrue};
ghost use Rattle.oat_world.specs.FailingCalls.{IsDue, calls_after};

use std::marker::Model;

/// The numbers of the calls that fail, and the number of the next call.
#[derive(Drop)]
pub struct FailingCalls {
    failing: Vec<u64>,
    next: Option<u64>,
}

impl Model for FailingCalls {
    ghost use Rattle.oat_world.specs.FailingCalls.{Calls};

    ghost Value = { Calls };

    ghost view = { λ calls. record { failing = calls.failing.items; next = calls.next } };
}

impl FailingCalls {
    pub fn new(failing: Vec<u64>) -> Self
        ensures failing { result.failing ≡ failing.items }
        ensures first { result.next ≡ Some 0 }
    {
        FailingCalls {
            failing,
            next: Some(0),
        }
    }

    /// Counts one more call, and answers whether it fails.
    pub fn next_fails(&mut self) -> bool
        ensures due { IsTrue result ↔ IsDue self.old }
        ensures counted { self.new ≡ calls_after self.old }
    {
        let Some(number) = self.next else {
            return false;
        };
        self.next = number.checked_add(1);
        self.failing.contains(&number)
    }
}
