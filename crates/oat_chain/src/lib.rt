//! The digests of a window: its begin record, and the chain of its returns.
#![tactic(auto)]

ghost use Rattle.std.specs.Prelude.{◌≡◌, ℕ, ◌+◌, ◌≤◌, List, [], ◌∷◌, ◌++◌, length, take, drop};
ghost use Rattle.oat_chain.specs.Chain.{begin_record, window_digest, window_head, chain};
ghost use Rattle.oat_chain.specs.Standing.{StandsFor};

use sha2::{Digest, Sha256};

mod comparison;
mod laws;
mod message;

pub use comparison::clash;
pub use laws::{chain_length, clash_exists, digest_length, head_length};
pub use message::{Clash, Message};

// Writes `part` over the bytes of `message` from `at` on.
fn put(message: &mut [u8; 50], at: usize, part: &[u8])
    requires { at + length part.now ≤ 50 }
    ensures { message.new ≡ take at message.old ++ (part.now ++ drop (at + length part.now) message.old) }
{
    let end = at + part.len();
    message[at..end].copy_from_slice(part);
}

/// A nonce, the number of an operation and a digest, as one message of 50 bytes.
pub fn begin_record(nonce: &[u8; 16], op: u16, digest: &[u8; 32]) -> [u8; 50]
    ensures { result ≡ begin_record nonce.now op digest.now }
{
    let mut message = [0; 50];
    put(&mut message, 0, nonce);
    put(&mut message, 16, &op.to_be_bytes());
    put(&mut message, 18, digest);
    message
}

fn window_digest(digest: &[u8; 32], serial: Option<u32>) -> [u8; 32]
    ensures { result ≡ window_digest digest.now serial }
{
    let Some(serial) = serial else {
        return *digest;
    };
    let mut hasher = Sha256::new();
    hasher.update(digest);
    hasher.update(&serial.to_be_bytes());
    hasher.finalize()
}

/// The message with which a window begins, and its chain with it: its serial number is in it where the windows of a session are numbered.
pub fn window_head(nonce: &[u8; 16], op: u16, digest: &[u8; 32], serial: Option<u32>) -> [u8; 50]
    ensures { result ≡ window_head nonce.now op digest.now serial }
{
    begin_record(nonce, op, &window_digest(digest, serial))
}

/// The running digest of a window's returns.
#[derive(Drop)]
pub struct Chain {
    value: [u8; 32],
}

impl Chain {
    #[tactic(auto, unfolding(crate::specs::Chain::chain))]
    /// The chain of no return, behind the begin record `head`.
    pub fn start(head: &[u8; 50]) -> Chain
        ensures { StandsFor result head.now [] }
    {
        Chain {
            value: Sha256::digest(head),
        }
    }

    /// Chains the address to which one more return went.
    pub fn absorb(&mut self, address: u64)
        ensures { (head addresses : List ℕ) → StandsFor self.old head addresses → StandsFor self.new head (addresses ++ address ∷ []) }
    {
        let mut hasher = Sha256::new();
        hasher.update(&self.value);
        hasher.update(&address.to_be_bytes());
        self.value = hasher.finalize();
    }

    pub fn digest(&self) -> [u8; 32]
        ensures { (head addresses : List ℕ) → StandsFor self.now head addresses → result ≡ chain head addresses }
    {
        self.value
    }
}
