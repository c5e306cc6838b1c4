//! Program texts that are read or refused, a layout of worked words, and a program whose code is too large.
#![tactic(auto)]

#[cfg(test)]
mod layouts;
#[cfg(test)]
mod sizes;
#[cfg(test)]
mod texts;
