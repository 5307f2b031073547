//! What a script asks for.

/// A call. Tickets and receipts are named by their numbers, from 1 in the order in which they were answered.
#[derive(Drop)]
pub enum Call {
    /// Stages the command that these bytes are.
    Stage(Vec<u8>),
    Write,
    /// Syncs with this ticket, and lends a list for so many notices.
    Sync { ticket: usize, room: usize },
    /// Delivers this receipt.
    Deliver(usize),
    /// Shelves this receipt.
    Shelve(usize),
    Snapshot,
    Restart,
    Open,
    /// Replays, and lends a list for so many notices.
    Replay { room: usize },
}

impl Call {
    ghost use Rattle.std.specs.Prelude.{◌≡◌};
    ghost use Rattle.runner.specs.Playing.{most_brought};

    // How many entries of a log spend what the call may bring, at most: two for a ticket, one for a receipt.
    pub(crate) fn most_brought(&self) -> usize
        ensures { result ≡ most_brought self.now }
    {
        match self {
            Call::Write => 2,
            Call::Sync { .. } | Call::Replay { .. } => 1,
            _ => 0,
        }
    }
}
