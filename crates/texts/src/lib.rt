//! The lines that tell what was done.
//!
//! Proved: the printed line of a command, a notice or a resting order has the defined bytes, and a side is read from its word, and from no other.
//! Trusted: the toolchain.
#![tactic(auto)]

pub mod lines;
