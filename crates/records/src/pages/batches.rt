//! The commands of a page.
use crate::commands::Command;
use arrayvec::ArrayVec;

/// How many commands a page may have.
pub const MOST_COMMANDS: usize = 16;

/// Up to 16 commands in their order, kept in place: no heap.
pub type Batch = ArrayVec<Command, MOST_COMMANDS>;
