//! A device on a file.
//!
//! What it means lives in memory, in a write-back drive over the file's image; the file follows. A write goes to the file at its
//! place before it is answered, and a sync is answered after the file's own (`fdatasync`). Any error of the file is answered as a
//! cut, and the device is then dark.
//!
//! Proved: it keeps the meaning of a device (crate `device`), that of the drive in its memory, and where it has noted an error of the
//! file it is dark. Of a write that succeeds one more write of the file is counted, after a sync that succeeds none is, and at most 8
//! ever are. Not proved: that what is counted was done to the file. Trusted: that the file holds what was written, and after its sync
//! keeps it; the toolchain and the C library.
#![tactic(auto)]

pub use images::load_image;
pub use on_file::OnFile;

pub mod calls;
pub mod images;
pub mod on_file;
