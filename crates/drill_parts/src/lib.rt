//! The parts of the drill that are plain data: which plans a cut tries, which calls follow a script's, and what a log says.
//!
//! Proved: the plans are the base-3 digits of numbers that lie evenly among all (specs/Plans); the calls that follow a
//! script's are just those of specs/Tails; cuts, openings and the pages that openings bring are read off a log as specs/Logs says.
//! Trusted: the toolchain.
#![tactic(auto)]

pub mod logs;
pub mod plans;
pub mod tail;
