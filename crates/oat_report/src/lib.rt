//! The texts of an owner's report.
#![tactic(auto)]

mod json_report;
pub mod laws;
mod line;
mod place;
mod source;
mod text;
mod trace;
mod typed;
mod verdict;

pub use json_report::{Report, json_line};
pub use line::{call_of, path_line};
pub use oat_ir::Listed;
pub use oat_map::{Edge, Map};
pub use oat_verify::{Cause, Verdict};
pub use place::{block_at, function_at, last_below, number_in_place, place_at_or_below};
pub use source::source_line;
pub use text::without_zeros;
pub use trace::{apart_line, use_line};
pub use typed::look_at_map;
pub use verdict::verdict_line;
