//! Drives: devices over lent bytes, with a fuse that cuts the power on demand.
//!
//! `Direct` puts each write down at once. `WriteBack` lets up to 8 writes wait, in order. Both are a `Drive` over a store,
//! so that size, power and fuse are one text. A `Schedule` puts a list of fuses on a drive, one after each cut.
//!
//! Proved: a drive keeps the meaning of a device (crate `device`), and beside it image bytes, waiting writes, power and
//! fuse after every call are exactly those of specs/Drives, a cut included. Nothing is trusted but the toolchain.
#![tactic(auto)]

pub use drive::{Direct, Drive, WriteBack};
pub use schedule::Schedule;

pub mod drive;
pub mod powered;
pub mod schedule;
