//! Whether the promises hold of a log: an executable check of receipts, notices and openings against the record.
//!
//! `audit_log` reads the log of a run from its first entry on, keeps the record as the log tells it, runs a fresh market over
//! it, and compares: every receipt and its notices with the record's, what each opening handed out with what was awaited, the
//! delivered notices for a gap, and a live exchange with the record.
//!
//! Proved: it answers yes exactly when the promises (specs/Promises of `protocol`) hold of that log and that exchange,
//! whatever the log; or memory gave out. Trusted: the toolchain.
#![tactic(auto)]

mod books;
mod checks;
mod covers;
mod handing;
mod readings;
pub mod verdict;

pub use verdict::audit_log;
