//! The words of the exchange: the three countings, the terms of an order, commands, notices and
//! refusals; commands as records of bytes; pages of commands and headers of snapshots as sectors.
//!
//! Proved: the record of a command, a page or a header is exactly the defined bytes, and has room in
//! a sector; of any bytes the decoders answer the one good command, page or header that they are the
//! record of, or none; what is encoded comes back; a page's sector looks like that page of that house
//! and no other, and zeros look like none; a refusal has its number.
//! Trusted: the toolchain and what it names. This crate reads and writes nothing outside.
#![tactic(auto)]

pub mod buffers;
pub mod commands;
pub mod counting;
pub mod headers;
mod kinds;
pub mod little_endian;
pub mod notices;
pub mod numbers;
pub mod pages;
pub mod refusals;
mod sectors;
