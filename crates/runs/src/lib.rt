//! The job `run`: an exchange opened on its file, or on the two files of its mirror, and a day of commands from standard input.
//!
//! A page is written at 16 commands, at a blank line, at `commit` and at the end of the input. Its receipt and its notices are told
//! once the page is safe, and delivered once they are told. Where the journal is full, a snapshot comes first.
//!
//! Proved: every function is safe and ends, on every input; what a line of the input asks for; what each record of the machine's
//! format is; and that a page which was worked to its end is counted, told and delivered, with nothing left staged.
//! Only tested: what is read, from standard input and from files, and what is printed. Trusted: the toolchain and the C library,
//! and that a file holds what was written (crate `file_device`).
#![tactic(auto)]

mod asks;
pub mod faults;
mod files;
mod floor;
mod owners;
mod pages;
mod reports;
pub mod running;
mod tellers;
