//! Where the records of an exchange lie on its device, and which of two snapshots is taken.
//!
//! Proved: pages that the journal holds at one time lie in different sectors; a header is taken
//! exactly if it is the good one of this house and this market; of two header sectors the one that
//! stands first in rank is handed out, by the one text that ranks orders too.
//! Trusted: the toolchain. This crate reads and writes nothing outside.
#![tactic(auto)]

pub mod choosing;
pub mod layouts;
pub mod slots;
