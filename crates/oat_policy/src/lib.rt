//! Policies of paths: rules that the edges of an accepted path keep or break.
#![tactic(auto)]

mod fault;
pub mod laws;
mod matching;
mod pattern;
mod policy;
mod reading;
mod recent;
mod rule;
mod rules;
mod verdict;
mod watch;
mod words;

pub use fault::{PolicyFault, PolicyFaultKind};
pub use oat_lines::{Fault, LineFault};
pub use oat_report::{Edge, Listed, Map};
pub use policy::{PathRule, Pattern, Policy, PolicyRule};
pub use reading::read_policy;
pub use verdict::{PolicyVerdict, verdict_on};
pub use watch::Watch;
