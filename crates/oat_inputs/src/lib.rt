//! What the files of a call hold: images with the shape, cases for their operations, and the digits of blobs.
#![tactic(auto)]

pub mod admit;
mod blob_text;
mod inputs;

pub use inputs::{case_of, digits_of, image_of, shaped_of};
pub use oat_case::Case;
