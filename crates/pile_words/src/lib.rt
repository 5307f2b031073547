//! The words that spell a pile.
//!
//! `pile_of` reads the shape of a pile from words, its devices from the top down; `PileFault` says why words are refused.
//!
//! Proved: words are read only as the pile that they spell (specs/Spellings); a word is told as missing only where none is
//! left, and one that is no kind of drive as what it is; a fault is told in its sentence (specs/Faults). Not proved: that words
//! which spell a pile are never refused, nor that each other fault which is told is the one that stands. Nothing is trusted but
//! the toolchain.
#![tactic(auto)]

pub use fault::PileFault;
pub use reading::pile_of;

pub mod fault;
pub mod reading;
mod unread;
