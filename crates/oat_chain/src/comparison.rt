//! The clash of two lists of returns with one chain.

ghost use Rattle.std.specs.Prelude.{◌≡◌, ◌≢◌, ◌↔◌, ℕ, List, [], ◌∷◌, ◌++◌, IsNone, IfNone, IfSome};
ghost use Rattle.sha2.specs.Sha256.{sha256};
ghost use Rattle.oat_chain.specs.Chain.{DiffersAt, chain, link, messages};
ghost use Rattle.oat_chain.specs.Clash.{bytes_of};
ghost use Rattle.oat_chain.specs.Standing.{Compares, StandsFor, IsChained};

use crate::Chain;
use crate::message::{Clash, Message};

// The messages of one list, up to the last one so far.
#[derive(Drop)]
struct Chained {
    chain: Chain,
    last: Message,
}

// The bytes of a link.
fn joined(before: &[u8; 32], address: u64) -> [u8; 40]
    ensures { result ≡ link before.now address }
{
    let mut bytes = [0; 40];
    bytes[..32].copy_from_slice(before);
    bytes[32..].copy_from_slice(&address.to_be_bytes());
    bytes
}

impl Chained {
    fn start(head: &[u8; 50]) -> Chained
        ensures { IsChained result head.now [] }
    {
        Chained {
            chain: Chain::start(head),
            last: Message::Begin(*head),
        }
    }

    fn absorb(&mut self, address: u64)
        ensures { (head addresses : List ℕ) → IsChained self.old head addresses → IsChained self.new head (addresses ++ address ∷ []) }
    {
        self.last = Message::Link(joined(&self.chain.digest(), address));
        self.chain.absorb(address);
    }

    fn over(head: &[u8; 50], addresses: &[u64]) -> Chained
        ensures { IsChained result head.now addresses.now }
    {
        let mut chained = Chained::start(head);
        for address in addresses {
            chained.absorb(*address);
        }
        chained
    }
}

// The last messages of both, where they differ.
fn differing(run: &Message, replay: &Message) -> Option<Clash>
    ensures none { IfNone result (bytes_of run.now ≡ bytes_of replay.now) }
    ensures some { IfSome result (λ c. (c.first ≡ run.now) × (c.second ≡ replay.now) × (bytes_of run.now ≢ bytes_of replay.now)) }
{
    if run.bytes() == replay.bytes() {
        None
    } else {
        Some(Clash {
            first: *run,
            second: *replay,
        })
    }
}

// Both lists so far, and the last two messages that differ.
#[derive(Drop)]
struct Comparison {
    run: Chained,
    replay: Chained,
    last: Option<Clash>,
}

impl Comparison {
    fn absorb(&mut self, run_address: u64, replay_address: u64)
        ensures { (head run replay : List ℕ) → Compares self.old head run replay → Compares self.new head (run ++ run_address ∷ []) (replay ++ replay_address ∷ []) }
    {
        self.run.absorb(run_address);
        self.replay.absorb(replay_address);
        self.last = differing(&self.run.last, &self.replay.last).or(self.last);
    }
}

/// The clash of a run's returns and a replay's, which have one chain behind the begin record `head`. None where they are equal.
pub fn clash(head: &[u8; 50], run_returns: &[u64], replay_returns: &[u64]) -> Option<Clash>
    requires { chain head.now run_returns.now ≡ chain head.now replay_returns.now }
    ensures none { IsNone result ↔ (run_returns.now ≡ replay_returns.now) }
    ensures place { IfSome result (λ c. DiffersAt (messages head.now run_returns.now) (messages head.now replay_returns.now) (bytes_of c.first) (bytes_of c.second)) }
    ensures digest { IfSome result (λ c. sha256 (bytes_of c.first) ≡ sha256 (bytes_of c.second)) }
{
    let common = run_returns.len().min(replay_returns.len());
    let (run_surplus, run_rest) = run_returns.split_at(run_returns.len() - common);
    let (replay_surplus, replay_rest) = replay_returns.split_at(replay_returns.len() - common);
    let run = Chained::over(head, run_surplus);
    let replay = Chained::over(head, replay_surplus);
    let last = differing(&run.last, &replay.last);
    let mut comparison = Comparison { run, replay, last };
    for (run_address, replay_address) in run_rest.iter().zip(replay_rest) {
        comparison.absorb(*run_address, *replay_address);
    }
    comparison.last
}
