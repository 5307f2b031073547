//! The exchange on paper: its state, its calls and what each does, the record that is kept from calls and answers alone,
//! and the promises over every run, with their proof.
//!
//! `specs/` is what a reader must believe: Worlds (a market's meaning, where records lie), Steps (what each call does),
//! Promises (record and promises), Witness (a run). The calls of an exchange (crate `exchange`) have `Does` of Steps as
//! their contract.
//!
//! Proved: `promises_stand`, that every run over every device and market keeps the promises; `runs_exist`, that there are
//! such runs. Trusted: the toolchain.
#![tactic(auto)]

pub mod faults;
pub mod phases;
pub mod promises;
pub mod tokens;
