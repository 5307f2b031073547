//! Markets: the trait of one, and what those that keep resting orders share: the order and its two
//! ranks, the table of a side's orders, resting and cancelling.
//!
//! Proved: the table's calls equal their definitions; a table lends a row and follows what is
//! written to it; nothing allocates after construction; a state that one market saves and another
//! loads is the same state, whatever the market.
//! Trusted: the toolchain.
#![tactic(auto)]

pub mod copies;
pub mod interface;
pub mod notes;
pub mod orders;
pub mod resting;
pub mod tables;
