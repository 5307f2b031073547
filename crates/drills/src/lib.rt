//! The power-cut drill: a script is run with the power cut at every call of its drives in turn, by every plan for the writes
//! that wait, then again with a second cut at every call of the opening that follows, and on a mirror with both halves cut
//! at different moments. The promises are checked on the log of every run.
//!
//! Proved: every function is safe and ends, on every input; a run of the drill is a run of `runner`, its log is judged by
//! `audit`, and what is read off it is proved in `drill_parts`. Only tested: that every cut and every plan has its turn, and
//! what is printed. Trusted: the toolchain and the C library.
#![tactic(auto)]

mod bench;
mod cuts;
pub mod drilling;
pub mod faults;
mod lines;
mod pairs;
mod table;
