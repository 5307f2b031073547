//! The book, market code 1: orders trade as they enter, and what is left of them rests.
//!
//! Proved: the book is a market, and each command does exactly what `book_step` defines; between
//! commands every order keeps its ranges, numbers are distinct and from 1 to the last, each side
//! stands in rank order, and no buy meets a sell. Its body loads as the state that it was saved from,
//! and nothing else loads.
//! Trusted: the toolchain.
#![tactic(auto)]

pub mod ledger;
mod matching;
pub mod shape;
