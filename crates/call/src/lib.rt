//! The call auction, market code 2: orders rest as they enter, and a cross trades them all at once,
//! at one price.
//!
//! Proved: the call auction is a market, and each command does exactly what `call_step` defines; a
//! cross takes the resting price with the most matched lots, the lowest of several, and fills these
//! lots, no more and no fewer, at a price that both orders of each fill accept. Its body loads as the
//! state that it was saved from, and nothing else loads.
//! Trusted: the toolchain.
#![tactic(auto)]

mod clearing;
pub mod ledger;
mod pairing;
pub mod shape;
