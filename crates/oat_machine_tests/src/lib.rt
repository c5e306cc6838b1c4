//! Worked words, runs of single instructions, and outside vectors of the digests.
#![tactic(auto)]

#[cfg(test)]
mod bits;
#[cfg(test)]
mod digests;
#[cfg(test)]
mod instructions;
#[cfg(test)]
mod memory;
