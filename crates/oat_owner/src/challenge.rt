ghost use Rattle.std.specs.Prelude.{◌≡◌, ◌<◌, ◌++◌, ◌∷◌, [], None, Some, slice_get, length, OnOk, OnErr};
ghost use Rattle.oat_owner.specs.Ledger.{challenge_limit, number_with, number_to, spent_at};

use indexmap::IndexSet;
use std::alloc::{AllocError, Global};
use std::marker::Model;

/// What a device was asked, and whether an answer was accepted.
#[derive(Drop)]
pub struct Challenge {
    pub device: u32,
    pub op: u16,
    pub nonce: [u8; 16],
    pub spent: bool,
}

/// Challenges by number, no two of one nonce.
#[derive(Drop)]
pub struct Challenges {
    nonces: IndexSet<[u8; 16]>,
    items: Vec<Challenge>,
}

impl Model for Challenges {
    ghost use Rattle.std.specs.Prelude.{List};
    ghost use Rattle.oat_owner.specs.declared.challenge.Challenge.{Challenge};
    ghost use Rattle.oat_owner.specs.Tables.{AreNonces};

    ghost Value = { List Challenge };

    ghost view = { λ c. c.items.items };

    ghost invariant = { λ c. AreNonces c.nonces.keys c.items.items };
}

impl Challenges {
    ghost use Rattle.std.specs.Prelude.{◌≤◌};

    /// No challenges, for which no memory is taken.
    pub fn new(alloc: Global) -> Self
        ensures { result ≡ [] }
    {
        Challenges {
            nonces: IndexSet::new(alloc),
            items: Vec::new(alloc),
        }
    }

    pub fn len(&self) -> usize
        ensures exact { result ≡ length self.now }
        ensures few { result ≤ challenge_limit }
    {
        self.items.len()
    }

    /// The number of the challenge with this nonce.
    pub fn number_with(&self, nonce: &[u8; 16]) -> Option<u32>
        ensures { result ≡ number_with self.now nonce.now }
    {
        match self.nonces.get_index_of(nonce) {
            Some(index) => Some(index as u32),
            None => None,
        }
    }

    /// The number of the challenge with this nonce to this device.
    pub fn number_to(&self, device: u32, nonce: &[u8; 16]) -> Option<u32>
        ensures { result ≡ number_to self.now device nonce.now }
    {
        let index = self.nonces.get_index_of(nonce)?;
        if self.items[index].device == device {
            Some(index as u32)
        } else {
            None
        }
    }

    pub fn get(&self, number: u32) -> &Challenge
        requires { number < length self.now }
        ensures { slice_get self.now number ≡ Some result.now }
    {
        &self.items[number as usize]
    }

    /// Puts a challenge with a new nonce behind the others.
    pub fn push(&mut self, challenge: Challenge) -> Result<(), AllocError>
        requires new { number_with self.old challenge.nonce ≡ None }
        requires room { length self.old < challenge_limit }
        ensures pushed { OnOk result (self.new ≡ self.old ++ challenge ∷ []) }
        ensures same { OnErr result (self.new ≡ self.old) }
    {
        let nonce = challenge.nonce;
        self.items.push(challenge)?;
        match self.nonces.insert(nonce) {
            Ok(_) => Ok(()),
            Err(_) => {
                self.items.pop();
                Err(AllocError)
            }
        }
    }

    /// Notes that an answer to a challenge was accepted.
    pub fn spend(&mut self, number: u32)
        requires { number < length self.old }
        ensures { self.new ≡ spent_at number self.old }
    {
        self.items[number as usize].spent = true;
    }
}
