//! The job `play`: a script from standard input, run on an exchange over the device that it names, with a line for each
//! call and its answer.
//!
//! Proved: every function is safe and ends, on every input; the words of commands, refusals, tickets, receipts and phases
//! have the defined bytes (specs/Texts). What is read of a script is proved in `play_words`, what the calls do in
//! `runner` and `exchange`. Only tested: which lines are printed. Trusted: the toolchain and the C library.
#![tactic(auto)]

mod answers;
pub mod lines;
pub mod playing;
pub mod reading;
