//! Pages of the journal: 1 to 16 commands in one sector.
use crate::numbers::{CommandNumber, HouseNumber, PageNumber};
use batches::Batch;

pub mod batches;
mod reads;
mod writes;

pub use reads::looks_for;

/// Whose page it is, which one, and the number of its first command.
#[derive(Clone, Copy, PartialEq, Eq, Debug)]
pub struct PageHead {
    pub house: HouseNumber,
    pub number: PageNumber,
    pub first: CommandNumber,
}

/// A page that was read.
#[derive(Drop)]
pub struct Page {
    pub head: PageHead,
    pub commands: Batch,
}
