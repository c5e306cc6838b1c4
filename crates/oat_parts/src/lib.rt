//! Code in parts: the image that is built of them has the shape.
//!
//! The functions of `laws` do nothing; their contracts are the laws.
#![tactic(auto)]

pub mod laws;
