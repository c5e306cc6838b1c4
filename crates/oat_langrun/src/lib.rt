//! What texts of the structured language mean: their runs, step by step.
#![tactic(auto)]

mod activation;
mod callers;
mod interpreter;
pub mod laws;
mod memory;
mod record;
mod routine;
mod run;
mod step;

pub use routine::Routine;
pub use run::LangRun;
pub use step::{Act, Step, Use};
