use oat_policy::{Fault, LineFault};
use std::alloc::{AllocError, Global};

/// The first fault of a text as a refusal says it; nothing of one that was read.
pub fn said<K: LineFault>(alloc: Global, fault: Option<Fault<K>>) -> Result<String, AllocError> {
    match fault {
        None => Ok(String::new(alloc)),
        Some(fault) => format!(in alloc; "{fault}"),
    }
}
