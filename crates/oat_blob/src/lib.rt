//! The sealed blob: what a device sends about one window.
#![tactic(auto)]

mod body;
mod decoding;
mod encoding;
mod fault;
mod fields;
mod laws;
mod reader;
mod records;

pub use body::{BodyHead, Violation};
pub use decoding::{BlobRef, decode};
pub use encoding::encode;
pub use fault::FormFault;
pub use laws::{no_proper_prefix, one_body, plain_length};
pub use oat_bits::PackedBits;
pub use oat_hmac::Mac;
pub use records::Records;
