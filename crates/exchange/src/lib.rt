//! An exchange over any market and any device: its ten calls, each proved to do what the exchange on paper does.
//!
//! Proved: every call, for every input, is the step of the exchange on paper (`Does` of crate `protocol`): which answer it
//! gives, and what phase, staging, counts, mark, covered page and slot, market and device then hold; what becomes of lent
//! lists, and which tokens come back. So every caller has the promises for its own run (`promises_stand`).
//! Trusted: the toolchain.
#![tactic(auto)]

pub mod calls;
mod judging;
pub mod making;
pub mod phases;
pub mod state;
pub mod tokens;
