//! What was done.
use protocol::faults::ExchangeFault;
use protocol::tokens::{ReceiptNumbers, TicketNumbers};
use records::notices::Notice;
use records::numbers::{CommandNumber, PageNumber};

/// A receipt, and the notices that came with it.
#[derive(Drop)]
pub struct HandedOut {
    pub receipt: ReceiptNumbers,
    pub notices: Vec<Notice>,
}

/// A call, what it was given and what it answered.
#[derive(Drop)]
pub enum Entry {
    Stage(Vec<u8>, Result<CommandNumber, ExchangeFault>),
    Write(Result<TicketNumbers, ExchangeFault>),
    Sync(TicketNumbers, usize, Result<HandedOut, ExchangeFault>),
    Deliver(ReceiptNumbers, Result<(), ExchangeFault>),
    Shelve(ReceiptNumbers),
    Snapshot(Result<(), ExchangeFault>),
    Restart,
    Open(Result<PageNumber, ExchangeFault>),
    Replay(usize, Result<Option<HandedOut>, ExchangeFault>),
    /// The call named a ticket or a receipt that is gone, or that never was: it was not made.
    Spent,
}
