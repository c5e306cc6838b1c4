//! What several commands show: the lines of a run, of blobs and of verdicts with their paths, and how windows end the work.
#![tactic(auto)]

mod blob_lines;
mod report;
mod run_lines;
mod windows;

pub use blob_lines::BlobLines;
pub use oat_lines::lower_digits;
pub use oat_map::{Edge, Map};
pub use oat_page::{Sink, SinkFault};
pub use oat_report::verdict_line;
pub use report::{edge_line, line_of, put_edge, put_edges, put_verdict};
pub use run_lines::{RunLines, put_end};
pub use windows::{ended_with, is_refusal, refuses_one, want_text, window_number};
