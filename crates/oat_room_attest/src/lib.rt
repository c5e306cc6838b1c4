//! The rooms of `attest` and `attest --json`: a program is built and run, and its blobs are judged.
#![tactic(auto)]

pub mod attest;
pub mod attest_json;
mod json_lines;

pub use oat_shown::Sink;
