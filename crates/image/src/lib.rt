//! The bytes that drives stand on: an image of sectors, writes that wait to be put down in it, and what a plan makes of
//! them when the power is cut.
//!
//! An image has 513 bytes a sector: a mark (0 readable, anything else torn) and the 512 bytes. specs/Image says what it
//! reads as, specs/Waiting what image and waiting writes mean together, specs/Fuses how a fuse counts and what the bits
//! of its plan say. Proved: every function here gives exactly the image, queue or fuse that those definitions name.
//! Nothing is trusted but the toolchain.
#![tactic(auto)]

pub use fuse::{Fate, Fuse, Plan};
pub use pending::Pending;
pub use queue::Queue;

pub mod fuse;
pub mod pending;
pub mod queue;
pub mod sectors;
