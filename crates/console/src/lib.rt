//! The console: orders as lines of text, and a day of them in a market.
//!
//! Proved: a day takes exactly the bytes that are a good command, steps its market by it and numbers
//! its notices without a gap; input of every length and content is worked to an end; every line of an input is handed on, in
//! its order and under its number.
//! Trusted: the toolchain.
#![tactic(auto)]

pub mod day;
pub mod input;
