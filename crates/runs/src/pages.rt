//! The pages of an exchange at work.
ghost use Rattle.std.specs.Prelude.{◌≡◌, ◌<◌, OnOk, IfOk, Ok, vec_len};
ghost use Rattle.protocol.specs.Steps.{Snapshot};
ghost use Rattle.exchange.specs.Views.{Called};
ghost use Rattle.runs.specs.Pages.{SameCounts, Counted, Written, Delivers, StagedOr, Taken, AllDelivered, NothingWaits, Committed, CommittedFull, AllCovered};

use crate::faults::RunFault;
use crate::floor::Floor;
use crate::reports::{Counts, Report};
use device::Device;
use exchange::tokens::{DeliverRefusal, Receipt, SyncRefusal, Ticket};
use market::interface::Market;
use play_words::script::MarketKind;
use protocol::faults::ExchangeFault;
use records::commands::Command;
use records::pages::batches::MOST_COMMANDS;
use records::refusals::Refusal;
use std::io::Write;
use words::LineFault;

impl<M: Market, D: Device, W: Write + Drop> Floor<M, D, W> {
    /// Tells of a line that was refused.
    pub(crate) fn tell_refused(
        &mut self,
        line: u64,
        reason: Refusal,
        fault: LineFault,
    ) -> Result<(), RunFault>
        ensures kept { self.new.exchange ≡ self.old.exchange }
    {
        Ok(self.teller.tell_refused(line, reason, fault)?)
    }

    fn counts(&self) -> Counts {
        let status = self.exchange.status();
        Counts {
            pages: status.pages,
            commands: status.commands,
            notices: status.notices,
        }
    }

    // Tells of a receipt and of its notices, which are the front of the list.
    fn tell_page(&mut self, receipt: &Receipt) -> Result<(), RunFault>
        ensures kept { self.new.exchange ≡ self.old.exchange }
    {
        let numbers = receipt.numbers();
        let notices = self.list.as_slice();
        let notices = notices.get(..numbers.notices as usize).unwrap_or(notices);
        Ok(self.teller.tell_page(numbers, notices)?)
    }

    // Tells of a receipt and its notices, and delivers it then. One that cannot be told is shelved.
    fn hand_out(&mut self, receipt: Receipt) -> Result<(), RunFault>
        ensures delivered { OnOk result (Delivers M.Market D.Device self.old.exchange receipt.numbers self.new.exchange) }
    {
        if let Err(fault) = self.tell_page(&receipt) {
            self.exchange.shelve(receipt);
            return Err(fault);
        }
        match self.exchange.deliver(receipt) {
            Ok(()) => Ok(()),
            Err(refusal) => {
                let DeliverRefusal { receipt, fault } = refusal;
                self.exchange.shelve(receipt);
                Err(fault.into())
            }
        }
    }

    // A snapshot of what there is.
    fn take_snapshot(&mut self) -> Result<(), RunFault>
        ensures taken { OnOk result (Called M.Market D.Device self.old.exchange (Snapshot (Ok tt)) self.new.exchange) }
    {
        self.exchange.snapshot()?;
        let page = self.exchange.status().pages;
        Ok(self.teller.tell(Report::Snapshot(page))?)
    }

    // Writes the staged page. Where the journal is full, a snapshot comes first.
    fn write_page(&mut self) -> Result<Ticket, RunFault>
        ensures written { IfOk result (λ t. Written M.Market D.Device self.old.exchange t.numbers self.new.exchange) }
    {
        match self.exchange.write() {
            Ok(ticket) => Ok(ticket),
            Err(fault) => match fault.reason {
                Refusal::JournalFull => {
                    self.take_snapshot()?;
                    Ok(self.exchange.write()?)
                }
                _ => Err(fault.into()),
            },
        }
    }

    // Writes the staged page and syncs it: the receipt's page is safe.
    fn put_page(&mut self) -> Result<Receipt, RunFault>
        ensures counted { IfOk result (λ r. Counted self.old.exchange r.numbers self.new.exchange) }
    {
        let ticket = self.write_page()?;
        match self.exchange.sync(ticket, self.list.as_mut_slice()) {
            Ok(receipt) => Ok(receipt),
            Err(SyncRefusal::Spent(fault)) => Err(fault.into()),
            Err(SyncRefusal::Back(ticket, fault)) => unreachable(),
        }
    }

    /// Writes what is staged as a page, where there is anything, and hands out what came of it.
    pub(crate) fn commit(&mut self) -> Result<(), RunFault>
        ensures committed { OnOk result (Committed self.old.exchange self.new.exchange) }
        ensures told { AllDelivered self.old.exchange → OnOk result (AllDelivered self.new.exchange) }
    {
        if self.exchange.status().staged == 0 {
            return Ok(());
        }
        let receipt = self.put_page()?;
        self.hand_out(receipt)
    }
}

impl<M: Market, D: Device, W: Write + Drop> Floor<M, D, W> {
    // Hands out again what the journal holds.
    fn replay_all(&mut self) -> Result<(), RunFault>
        ensures told { NothingWaits self.old.exchange → OnOk result (NothingWaits self.new.exchange) }
    {
        while let Some(receipt) = self.exchange.replay(self.list.as_mut_slice())? {
            self.hand_out(receipt)?;
        }
        Ok(())
    }

    /// Opens the exchange, and hands out again what its journal holds.
    pub(crate) fn open(&mut self, market: MarketKind) -> Result<(), RunFault>
        ensures told { OnOk result (NothingWaits self.new.exchange) }
    {
        let page = self.exchange.open()?;
        let house = self.exchange.status().house;
        self.teller.tell(Report::Opened {
            house,
            market,
            page,
        })?;
        self.replay_all()?;
        let counts = self.counts();
        Ok(self.teller.tell(Report::Live(counts))?)
    }

    // Stages a command; none, where it is staged, or why it is refused.
    fn stage(&mut self, command: &Command) -> Result<Option<Refusal>, RunFault>
        ensures staged { IfOk result (λ r. StagedOr M.Market D.Device self.old.exchange command.now r self.new.exchange) }
    {
        match self.exchange.stage(command.encode().as_bytes()) {
            Ok(_) => Ok(None),
            Err(fault) => match fault.reason {
                Refusal::NotACommand => Ok(Some(Refusal::NotACommand)),
                Refusal::NumbersSpent => Ok(Some(Refusal::NumbersSpent)),
                _ => Err(fault.into()),
            },
        }
    }

    // Commits a page that is full.
    fn commit_full(&mut self) -> Result<(), RunFault>
        ensures told { AllDelivered self.old.exchange → OnOk result (AllDelivered self.new.exchange) }
        ensures room { OnOk result (vec_len self.new.exchange.staged < 16) }
        ensures committed { OnOk result (CommittedFull self.old.exchange self.new.exchange) }
    {
        if self.exchange.status().staged == MOST_COMMANDS {
            self.commit()?;
        }
        Ok(())
    }

    /// Takes a command; a page is full at 16.
    pub(crate) fn take(&mut self, command: &Command) -> Result<Option<Refusal>, RunFault>
        ensures told { AllDelivered self.old.exchange → OnOk result (AllDelivered self.new.exchange) }
        ensures room { OnOk result (vec_len self.new.exchange.staged < 16) }
        ensures taken { IfOk result (λ r. Taken M.Market D.Device self.old.exchange command.now r self.new.exchange) }
    {
        let refused = self.stage(command)?;
        self.commit_full()?;
        Ok(refused)
    }

    /// Writes what waits, and takes a snapshot, where there is a page that none covers.
    pub(crate) fn close(&mut self) -> Result<(), RunFault>
        ensures covered { AllDelivered self.old.exchange → OnOk result (AllCovered self.new.exchange) }
    {
        self.commit()?;
        let status = self.exchange.status();
        if status.covered != status.pages {
            self.take_snapshot()?;
        }
        let counts = self.counts();
        Ok(self.teller.tell(Report::Done(counts))?)
    }
}
