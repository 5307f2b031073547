//! The jobs `setup` and `show`: an exchange set up on a file or on a mirror of two, and what such a file holds.
//!
//! Proved: every function is safe and ends, on every input; which lengths are those of an image, and how many sectors they
//! make; which code is which market's, and its name as it is printed; whose exchange a slot's header is of; which sectors are blank; the slot that an opening takes is
//! that of the header that stands first in rank, by the text that an exchange opens by; and how a page in the journal stands to
//! the pages that an opening replayed. What an opening does is found by opening an exchange on the image in memory.
//! Only tested: what is read from a file and what is made of it, and what is printed. Trusted: the toolchain and the C
//! library, and that the file holds what was written (crate `file_device`).
#![tactic(auto)]

mod courses;
pub mod faults;
pub mod files;
mod journals;
pub mod markets;
mod openings;
pub mod owners;
mod sectors;
pub mod setting;
pub mod showing;
pub mod sizes;
mod slots;
mod stands;
