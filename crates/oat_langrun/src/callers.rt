//! The activations that wait.
ghost use Rattle.std.specs.Prelude.{◌≡◌, ◌<◌, [], ◌∷◌, length, IfOk, MatchOption};

use crate::activation::Activation;
use std::alloc::{AllocError, Global};
use std::marker::Model;

/// The most calls that may be active.
pub const MOST_CALLERS: usize = 256;

/// A stack of activations.
///
/// Contracts see it as a list, the last caller first.
#[derive(Drop)]
pub struct Callers {
    waiting: Vec<Activation>,
}

impl Model for Callers {
    ghost use Rattle.std.specs.Prelude.{◌≤◌, List, reverse, vec_capacity};
    ghost use Rattle.oat_langrun.specs.declared.activation.Activation.{Activation};

    ghost Value = { List Activation };

    ghost view = { λ callers. reverse callers.waiting.items };

    ghost invariant = { λ callers. 256 ≤ vec_capacity callers.waiting };
}

impl Callers {
    /// None yet, with room for 256.
    pub fn with_room(alloc: Global) -> Result<Callers, AllocError>
        ensures { IfOk result (λ callers. callers ≡ []) }
    {
        Ok(Callers {
            waiting: Vec::with_capacity(alloc, MOST_CALLERS)?,
        })
    }

    pub fn len(&self) -> usize
        ensures { result ≡ length self.now }
    {
        self.waiting.len()
    }

    pub fn push(&mut self, caller: Activation)
        requires { length self.old < 256 }
        ensures { self.new ≡ caller ∷ self.old }
    {
        self.waiting.push_reserved(caller);
    }

    pub fn pop(&mut self) -> Option<Activation>
        ensures { MatchOption result ((self.old ≡ []) × (self.new ≡ [])) (λ caller. self.old ≡ caller ∷ self.new) }
    {
        self.waiting.pop()
    }
}
