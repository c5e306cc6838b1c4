//! The symbol table of a program, the image that is built of its code, and the names of the image's places and sites.
//!
//! The functions of `laws` do nothing; their contracts are the laws.
#![tactic(auto)]

pub mod laws;
