//! A market that keeps resting orders and does with them what its rules say: one text for all such
//! markets. It is a market, saves and loads its state, and the rules add what they do at a good
//! command.
//!
//! Proved: it is a market whatever the rules, as long as they keep their laws; each command does
//! exactly what the rules define, and is fair as they define it. Its body loads as the state that it
//! was saved from, and nothing else loads.
//! Trusted: the toolchain.
#![tactic(auto)]

pub mod ledger;
pub mod rules;
pub mod shape;
