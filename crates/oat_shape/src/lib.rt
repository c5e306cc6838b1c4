//! The shape of images.
#![tactic(auto)]

mod apart;
mod branches;
mod cells;
mod code;
mod covers;
mod decoding;
mod elements;
mod fault;
mod groups;
pub mod laws;
mod leads;
mod lowest;
mod named;
mod paired;
mod places;
mod rises;
mod rules;
mod shaped;
mod transfers;

pub use fault::{ShapeFault, ShapeRefusal};
pub use oat_a64::CODE_BASE;
pub use oat_image::Image;
pub use shaped::{Shaped, check_shape};
