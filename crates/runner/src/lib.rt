//! A script of calls, run on an exchange that is set up for it, and the log of what each call answered.
//!
//! Proved: whatever the script, wherever the power fails, the promises hold of the log, and the calls in it are the script's,
//! with those that spend what tickets and receipts are left at the end. Trusted: the toolchain.
#![tactic(auto)]

mod acts;
mod hands;
pub mod log;
pub mod running;
pub mod script;
