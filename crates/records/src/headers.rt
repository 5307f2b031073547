//! Headers of snapshots: what a saved state of the market covers.
use crate::numbers::{CommandNumber, HouseNumber, NoticeNumber, PageNumber};

mod codes;

/// The last page, command and notice before the snapshot, and whose it is.
#[derive(Clone, Copy, PartialEq, Eq, Debug)]
pub struct Header {
    pub house: HouseNumber,
    pub page: PageNumber,
    pub commands: CommandNumber,
    pub notices: NoticeNumber,
    /// The code of the market whose state was saved.
    pub market: u16,
}
