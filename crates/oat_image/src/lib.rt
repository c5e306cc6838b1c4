//! Images: code, initial words, cells and map, and the text that spells them.
#![tactic(auto)]

mod element;
mod fault;
mod image;
mod keyword;
pub mod laws;
mod line;
mod printing;
mod reading;
mod receiver;
mod row;
mod text;
mod version;
mod well_formed;
mod words;
pub mod worked;

pub use fault::{ImageFault, ImageFaultKind};
pub use image::{Image, InitWord};
pub use oat_map::{Function, Name, Row};
pub use printing::{image_digest, print_image};
pub use reading::read_image;
