//! What tickets and receipts say.
use records::numbers::{CommandNumber, HouseNumber, NoticeNumber, PageNumber};

/// The numbers of a ticket: the page that was written, and whose it is.
#[derive(Clone, Copy, PartialEq, Eq, Debug)]
pub struct TicketNumbers {
    pub house: HouseNumber,
    pub page: PageNumber,
}

/// The numbers of a receipt: a page of the record, its commands and its notices.
#[derive(Clone, Copy, PartialEq, Eq, Debug)]
pub struct ReceiptNumbers {
    pub house: HouseNumber,
    pub page: PageNumber,
    /// The number of its first command.
    pub first: CommandNumber,
    /// How many commands it has.
    pub commands: u64,
    /// The number of its first notice, one above the earlier pages' where it has none.
    pub notice: NoticeNumber,
    /// How many notices it has.
    pub notices: u64,
}
