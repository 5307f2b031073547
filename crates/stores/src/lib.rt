//! What drives keep their sectors in: lent bytes, with or without writes that wait.
//!
//! Proved: both stores do to image and waiting writes exactly what `Store` says, in the words of the crate `image`.
//! Nothing is trusted but the toolchain.
#![tactic(auto)]

pub use cached::Cached;
pub use plain::Plain;
pub use store::Store;

pub mod cached;
pub mod plain;
pub mod store;
