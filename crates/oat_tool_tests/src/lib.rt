//! Tests of the program's one call, on files and outputs in memory. The crate has nothing else.
#![tactic(auto)]

#[cfg(test)]
mod tests;
