//! Piles of devices that are chosen at run time.
//!
//! A pile is an offset over a whole, which is one part or a mirror of two; a part is an offset over a drive, direct or
//! write-back, with its fuses. An offset of base 0 stands where none is asked for. `build` makes the pile of a shape over
//! lent images of 513 bytes a sector.
//!
//! Proved: `Base` keeps the meaning of the drive that it holds (specs/Bases); the bytes of each drive's image are counted
//! (specs/Shapes); what is built is, layer by layer, what the shape says, each drive over its own lent bytes and with the
//! first of its fuses on, and no pile is refused but one with a write-back drive, for want of memory (specs/Builds). Nothing is
//! trusted but the toolchain.
#![tactic(auto)]

pub use base::Base;
pub use building::{Part, Pile, Whole, build};
pub use shape::{DriveKind, DriveShape, PartShape, PileShape, WholeShape};

pub mod base;
pub mod building;
pub mod shape;
pub mod sizes;
