//! The journal and the snapshots on a device: sectors cleared, snapshots written, headers chosen, bodies loaded, pages read.
//!
//! Proved: each call performs exactly the device calls that the exchange on paper names for it, in that order, until one is
//! cut; what it answers of headers, bodies and pages is the defined value of what the sectors read as. A device's fault
//! becomes the journal's by `?`. Trusted: the toolchain.
#![tactic(auto)]

pub mod loading;
pub mod paging;
pub mod reading;
pub mod writing;
