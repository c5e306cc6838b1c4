//! HMAC-SHA-256: the code by which a sealed blob is known to come from the holder of a key.
#![tactic(auto)]

ghost use Rattle.std.specs.Prelude.{◌≡◌, ℕ, ◌-◌, ◌≤◌, List, [], ◌++◌, length, replicate};
ghost use Rattle.oat_hmac.specs.Hmac.{hmac, key_block, masked, short_key};
ghost use Rattle.oat_hmac.specs.Standing.{HasTaken};

use sha2::{Digest, Sha256};

/// The bytes of a block of SHA-256.
const BLOCK: usize = 64;

const INNER_MASK: u8 = 0x36;

const OUTER_MASK: u8 = 0x5C;

// The key with zeros behind it, up to the end of the block.
fn filled(key: &[u8]) -> [u8; 64]
    requires { length key.now ≤ 64 }
    ensures { result ≡ key.now ++ replicate (64 - length key.now) 0 }
{
    let mut block = [0; BLOCK];
    block[..key.len()].copy_from_slice(key);
    block
}

#[tactic(auto, unfolding(crate::specs::Hmac::key_block, crate::specs::Hmac::short_key))]
fn block_of(key: &[u8]) -> [u8; 64]
    ensures { result ≡ key_block key.now }
{
    if key.len() > BLOCK {
        let digest = Sha256::digest(key);
        filled(&digest)
    } else {
        filled(key)
    }
}

#[tactic(auto, unfolding(crate::specs::Hmac::masked))]
fn with_mask(block: &[u8; 64], mask: u8) -> [u8; 64]
    ensures { result ≡ masked mask block.now }
{
    let mut out = *block;
    for byte in out.iter_mut() {
        *byte ^= mask;
    }
    out
}

/// A code in the making: it takes the text piece by piece.
#[derive(Drop)]
pub struct Mac {
    inner: Sha256,
    outer: Sha256,
}

impl Mac {
    /// A code of the empty text under `key`, which may have any length.
    pub fn new(key: &[u8]) -> Mac
        ensures { HasTaken result key.now [] }
    {
        let block = block_of(key);
        let mut inner = Sha256::new();
        inner.update(&with_mask(&block, INNER_MASK));
        let mut outer = Sha256::new();
        outer.update(&with_mask(&block, OUTER_MASK));
        Mac { inner, outer }
    }

    /// Adds `piece` to the text.
    pub fn update(&mut self, piece: &[u8])
        ensures { (key text : List ℕ) → HasTaken self.old key text → HasTaken self.new key (text ++ piece.now) }
    {
        self.inner.update(piece);
    }

    /// The code of the text.
    pub fn finish(self) -> [u8; 32]
        ensures { (key text : List ℕ) → HasTaken self key text → result ≡ hmac key text }
    {
        let Mac { inner, mut outer } = self;
        let digest = inner.finalize();
        outer.update(&digest);
        outer.finalize()
    }
}
