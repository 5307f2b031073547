//! Tickets and receipts: plain numbers inside, made by an exchange only, and spent by its calls only. They can be neither
//! copied nor let go.
ghost use Rattle.std.specs.Prelude.{◌≡◌};

use protocol::faults::ExchangeFault;
use protocol::tokens::{ReceiptNumbers, TicketNumbers};

/// A page that was written and is not synced yet: sync takes it.
pub struct Ticket {
    pub(crate) numbers: TicketNumbers,
}

/// A page of the record, with its notices: deliver or shelve takes it.
pub struct Receipt {
    pub(crate) numbers: ReceiptNumbers,
}

/// Why a sync was refused: the ticket comes back, or is spent.
pub enum SyncRefusal {
    Back(Ticket, ExchangeFault),
    Spent(ExchangeFault),
}

/// Why a receipt was not delivered, and the receipt.
pub struct DeliverRefusal {
    pub receipt: Receipt,
    pub fault: ExchangeFault,
}

impl Ticket {
    /// What it says.
    pub fn numbers(&self) -> TicketNumbers
        ensures { result ≡ self.now.numbers }
    {
        self.numbers
    }
}

impl Receipt {
    /// What it says.
    pub fn numbers(&self) -> ReceiptNumbers
        ensures { result ≡ self.now.numbers }
    {
        self.numbers
    }
}
