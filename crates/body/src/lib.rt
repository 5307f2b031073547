//! The saved body of a market that keeps resting orders: 1,536 bytes, the last number, the counts of
//! buys and sells, both sides in rank order, and zeros.
//!
//! Proved: `write_body` writes exactly the defined bytes; `read_body` answers the state that bytes
//! are the body of, and refuses all others; a state's tests say what makes it sound.
//! Trusted: the toolchain.
#![tactic(auto)]

mod checks;
pub mod image;
pub mod reading;
pub mod writing;
