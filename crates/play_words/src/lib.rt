//! Scripts of calls from words.
//!
//! A script names a house, a market and a device, says `setup`, and then calls the exchange, a line each. `Reader` takes
//! the words of its lines; `call_of` reads one call.
//!
//! Proved: words are read only as the call that they spell (specs/Spellings), numbers by their numerals, a staged
//! command as the bytes of its record, and hex digits as the bytes that they spell; a line that is taken adds to the script exactly what it says, a call only below
//! the set-up, and a script that is finished is what was read (specs/Scripts). Not proved: that words
//! which spell a line are never refused, nor that the fault which is told is the one that stands.
//! Trusted: the toolchain.
#![tactic(auto)]

pub mod calls;
pub mod faults;
pub mod script;
