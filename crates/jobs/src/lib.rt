//! What the program does: each job reads its input to the end and prints each thing that it did.
//!
//! Proved: every function is safe and ends, on every input. What the jobs compute and how a line is
//! spelled is proved in the crates below.
//! Only tested: what is read from and written to the outside.
//! Trusted: the toolchain and the C library.
#![tactic(auto)]

pub mod faults;
pub mod matching;
pub mod paging;
pub mod reading;
