//! A program's honest runs are accepted: `attest` builds a program, measures its run, and judges each blob of it.
#![tactic(auto)]

mod attested;
mod attesting;
pub mod laws;
mod looking;

pub use attested::Attested;
pub use attesting::attest;
