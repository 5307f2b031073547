//! The calls.
ghost use Rattle.std.specs.Prelude.{◌≡◌, suc, ◌+◌, ◌*◌, ◌≤◌, true, length, vec_len};
ghost use Rattle.protocol.specs.Steps.{world_of, taking, SetsUp, Stage, Write, Sync, Deliver, Shelve, Snapshot, Restart, Open, Replay};
ghost use Rattle.exchange.specs.Answers.{ticket_said, sync_said, replay_said, deliver_said, TicketBack, ReceiptBack, SyncList, ReplayList};
ghost use Rattle.exchange.specs.Counting.{one_more, Applied};
ghost use Rattle.protocol.specs.Faults.{of_journal};
ghost use Rattle.protocol.specs.Worlds.{rules_of, page_head, header_for};
ghost use Rattle.records.specs.Headers.{header_fits, counts_good};
ghost use Rattle.protocol.specs.declared.phases.Phase.TheVariants.{Live, Replaying};
ghost use Rattle.exchange.specs.Ranges.{waits};
ghost use Rattle.exchange.specs.Views.{view, Called};

use crate::phases::Asked;
use crate::state::Exchange;
use crate::tokens::{DeliverRefusal, Receipt, SyncRefusal, Ticket};
use batches::apply_page;
use device::Device;
use device::run::Operation;
use journal::choosing::SlotHeader;
use journal::slots::Slot;
use journal_io::loading::open_snapshot;
use journal_io::paging::{put_page, read_page};
use journal_io::writing::{perform_all, put_first, put_snapshot};
use market::interface::Market;
use protocol::faults::{ExchangeFault, JournalFault};
use protocol::phases::Phase;
use protocol::tokens::{ReceiptNumbers, TicketNumbers};
use records::commands::Command;
use records::headers::Header;
use records::notices::Notice;
use records::numbers::{CommandNumber, HouseNumber, NoticeNumber, PageNumber};
use records::pages::PageHead;
use records::refusals::Refusal;

// The header of these numbers, which have room in its record. (A function of the numbers, so that their types alone say so.)
fn header_of(
    house: HouseNumber,
    page: PageNumber,
    commands: CommandNumber,
    notices: NoticeNumber,
    market: u16,
) -> Header
    ensures fits { header_fits result ≡ true }
    ensures value { result ≡ record { house = house; page = page; commands = commands; notices = notices; market = market } }
{
    Header {
        house,
        page,
        commands,
        notices,
        market,
    }
}

// `kept` says in each call what becomes of the device's lender: it relates two moments, which no type can hold.
impl<M: Market, D: Device> Exchange<M, D> {
    /// Resets the exchange, and touches no device.
    pub fn restart(&mut self)
        ensures did { Called M.Market D.Device self.old Restart self.new }
        ensures kept { self.new.device ≡ self.old.device }
    {
        self.phase = Phase::Dark;
        self.staged.clear();
        self.pages = PageNumber(0);
        self.commands = CommandNumber(0);
        self.notices = NoticeNumber(0);
        self.mark = NoticeNumber(0);
        self.covered = PageNumber(0);
        self.slot = Slot::Zero;
        self.market.fresh();
    }

    // A fault of the journal resets the exchange, and is then its own. (Each call has a match for it: a closure in `map_err` was
    // tried in `write`, and left open what the exchange then is.)
    fn reset_by(&mut self, fault: JournalFault) -> ExchangeFault
        ensures reset { Called M.Market D.Device self.old Restart self.new }
        ensures fault { result ≡ of_journal fault }
        ensures kept { self.new.device ≡ self.old.device }
    {
        self.restart();
        fault.into()
    }

    /// Stages one command, given as bytes, and answers the number that it would get.
    pub fn stage(&mut self, bytes: &[u8]) -> Result<CommandNumber, ExchangeFault>
        ensures did { Called M.Market D.Device self.old (Stage bytes.now result) self.new }
        ensures kept { self.new.device ≡ self.old.device }
    {
        let command = self.judge_stage(bytes)?;
        let number = self.commands.0 + self.staged.len() as u64;
        self.staged.push_reserved(command);
        Ok(CommandNumber(number + 1))
    }
}

impl<M: Market, D: Device> Exchange<M, D> {
    // The head of the next page.
    fn next_head(&self) -> PageHead
        ensures { result ≡ page_head (world_of (rules_of M.Market) (view M.Market D.Device self.now)) (suc self.now.pages.0) (suc self.now.commands.0) }
    {
        PageHead {
            house: self.house,
            number: PageNumber(self.pages.0 + 1),
            first: CommandNumber(self.commands.0 + 1),
        }
    }

    // The header of a snapshot of what there is now.
    fn header(&self) -> Header
        ensures fits { header_fits result ≡ true }
        ensures value { result ≡ header_for (world_of (rules_of M.Market) (view M.Market D.Device self.now)) self.now.pages.0 self.now.commands.0 self.now.notices.0 }
    {
        header_of(self.house, self.pages, self.commands, self.notices, M::CODE)
    }

    // Counts a page of so many commands and notices, which was applied, and empties the staging.
    fn count_page(&mut self, next: Phase, commands: u64, notices: u64) -> ReceiptNumbers
        requires some { 1 ≤ commands }
        requires few { self.old.commands.0 + commands ≤ 1000000000000 }
        requires told { notices ≤ 64 * commands }
        requires next { waits next 0 ≡ true }
        ensures counted { view M.Market D.Device self.new ≡ one_more next commands notices (M.means self.old.market) (view M.Market D.Device self.old) }
        ensures receipt { result ≡ record { house = self.old.house; page = record { 0 = suc self.old.pages.0 }; first = record { 0 = suc self.old.commands.0 }; commands = commands; notice = record { 0 = suc self.old.notices.0 }; notices = notices } }
        ensures kept { self.new.device ≡ self.old.device }
    {
        let numbers = ReceiptNumbers {
            house: self.house,
            page: PageNumber(self.pages.0 + 1),
            first: CommandNumber(self.commands.0 + 1),
            commands,
            notice: NoticeNumber(self.notices.0 + 1),
            notices,
        };
        self.phase = next;
        self.staged.clear();
        self.pages = numbers.page;
        self.commands = CommandNumber(self.commands.0 + commands);
        self.notices = NoticeNumber(self.notices.0 + notices);
        numbers
    }

    /// Writes the staged commands as the next page, and answers a ticket.
    pub fn write(&mut self) -> Result<Ticket, ExchangeFault>
        ensures did { Called M.Market D.Device self.old (Write (ticket_said result)) self.new }
        ensures kept { D.lender self.new.device ≡ D.lender self.old.device }
    {
        let way = self.judge_write()?;
        let head = self.next_head();
        match put_page(&mut self.device, &way.layout, head, &self.staged) {
            Ok(()) => {
                self.phase = way.next;
                Ok(Ticket {
                    numbers: TicketNumbers {
                        house: self.house,
                        page: head.number,
                    },
                })
            }
            Err(fault) => Err(self.reset_by(fault)),
        }
    }

    // Applies the staged commands, and counts their page.
    fn apply_staged(&mut self, next: Phase, list: &mut [Notice]) -> Receipt
        requires some { 1 ≤ vec_len self.old.staged }
        requires room { 64 * vec_len self.old.staged ≤ length list.old }
        requires next { next ≡ Live }
        ensures applied { Applied (rules_of M.Market) next self.old.staged.items (view M.Market D.Device self.old) list.old result.numbers (view M.Market D.Device self.new) list.new }
        ensures kept { self.new.device ≡ self.old.device }
    {
        let commands = self.staged.len() as u64;
        let notices = apply_page(&mut self.market, &self.staged, self.notices, list) as u64;
        Receipt {
            numbers: self.count_page(next, commands, notices),
        }
    }

    /// Takes the ticket of the written page, syncs the device, applies the commands, and answers a receipt; the notices come
    /// over the front of the list.
    pub fn sync(&mut self, ticket: Ticket, list: &mut [Notice]) -> Result<Receipt, SyncRefusal>
        ensures did { Called M.Market D.Device self.old (Sync ticket.numbers (length list.old) (sync_said result list.new)) self.new }
        ensures back { TicketBack ticket result }
        ensures list { SyncList list.old result list.new }
        ensures kept { D.lender self.new.device ≡ D.lender self.old.device }
    {
        match self.judge_sync(&ticket, list.len()) {
            Ok(next) => {
                let Ticket { numbers: _ } = ticket;
                match perform_all(&mut self.device, &[Operation::Sync]) {
                    Ok(()) => Ok(self.apply_staged(next, list)),
                    Err(fault) => Err(SyncRefusal::Spent(self.reset_by(fault))),
                }
            }
            // A match of its own: below a flat pattern the proof does not know that the phase is not the reason.
            Err(reason) => match reason {
                Refusal::WrongPhase => {
                    let Ticket { numbers: _ } = ticket;
                    Err(SyncRefusal::Spent(reason.into()))
                }
                _ => Err(SyncRefusal::Back(ticket, reason.into())),
            },
        }
    }

    /// Writes the market's body to the slot that does not cover, syncs, writes its header, and syncs: that slot and the last
    /// page are then covered.
    pub fn snapshot(&mut self) -> Result<(), ExchangeFault>
        ensures did { Called M.Market D.Device self.old (Snapshot result) self.new }
        ensures kept { D.lender self.new.device ≡ D.lender self.old.device }
    {
        self.phase = self.judge_snapshot()?;
        let mut body = [0; 1536];
        self.market.save(&mut body);
        let header = self.header();
        let slot = self.slot.other();
        match put_snapshot(&mut self.device, slot, &body, &header) {
            Ok(()) => {
                self.covered = self.pages;
                self.slot = slot;
                Ok(())
            }
            Err(fault) => Err(self.reset_by(fault)),
        }
    }

    /// Sets a dark exchange up: clears its device, writes the first snapshot, and is live.
    pub fn set_up(&mut self) -> Result<(), ExchangeFault>
        ensures did { SetsUp (rules_of M.Market) (view M.Market D.Device self.old) result (view M.Market D.Device self.new) }
        ensures kept { D.lender self.new.device ≡ D.lender self.old.device }
    {
        let way = self.judge_start(Asked::SetUp)?;
        self.restart();
        let mut body = [0; 1536];
        self.market.save(&mut body);
        let header = self.header();
        match put_first(&mut self.device, way.layout.journal(), &body, &header) {
            Ok(()) => {
                self.phase = way.next;
                Ok(())
            }
            Err(fault) => Err(self.reset_by(fault)),
        }
    }

    // Takes the counts of a header whose body is in the market.
    fn take_up(&mut self, next: Phase, first: SlotHeader)
        requires next { next ≡ Replaying }
        requires counts { counts_good first.header ≡ true }
        ensures taken { view M.Market D.Device self.new ≡ taking (world_of (rules_of M.Market) (view M.Market D.Device self.old)) first.slot first.header (M.means self.old.market) (D.meaning self.old.device) }
        ensures kept { self.new.device ≡ self.old.device }
    {
        self.phase = next;
        self.staged.clear();
        self.pages = first.header.page;
        self.commands = first.header.commands;
        self.notices = first.header.notices;
        self.mark = first.header.notices;
        self.covered = first.header.page;
        self.slot = first.slot;
    }

    /// Opens a dark exchange: wakes and syncs its device, loads the snapshot that stands first in rank, and answers the page
    /// that it covers. Replay goes on from there.
    pub fn open(&mut self) -> Result<PageNumber, ExchangeFault>
        ensures did { Called M.Market D.Device self.old (Open result) self.new }
        ensures kept { D.lender self.new.device ≡ D.lender self.old.device }
    {
        let way = self.judge_start(Asked::Open)?;
        match open_snapshot(&mut self.device, &mut self.market, self.house) {
            Ok(first) => {
                self.take_up(way.next, first);
                Ok(first.header.page)
            }
            Err(fault) => Err(self.reset_by(fault)),
        }
    }

    // Applies the commands of a page that was read, and counts it. (No one text with `apply_staged`: a call that changes the
    // exchange cannot be lent the exchange's own list, which would have to be copied out for each page.)
    fn apply_read(&mut self, commands: &[Command], list: &mut [Notice]) -> Receipt
        requires some { 1 ≤ length commands.now }
        requires few { self.old.commands.0 + length commands.now ≤ 1000000000000 }
        requires room { 64 * length commands.now ≤ length list.old }
        ensures applied { Applied (rules_of M.Market) Replaying commands.now (view M.Market D.Device self.old) list.old result.numbers (view M.Market D.Device self.new) list.new }
        ensures kept { self.new.device ≡ self.old.device }
    {
        let notices = apply_page(&mut self.market, commands, self.notices, list) as u64;
        Receipt {
            numbers: self.count_page(Phase::Replaying, commands.len() as u64, notices),
        }
    }

    /// Reads the next page, applies it and answers its receipt, with its notices over the front of the list; where there is
    /// none, answers none, and the exchange is live.
    pub fn replay(&mut self, list: &mut [Notice]) -> Result<Option<Receipt>, ExchangeFault>
        ensures did { Called M.Market D.Device self.old (Replay (length list.old) (replay_said result list.new)) self.new }
        ensures list { ReplayList list.old result list.new }
        ensures kept { D.lender self.new.device ≡ D.lender self.old.device }
    {
        let way = self.judge_replay(list.len())?;
        let head = self.next_head();
        let sector = way.layout.page_sector(head.number);
        match read_page(&mut self.device, sector, head) {
            Ok(Some(page)) => Ok(Some(self.apply_read(page.commands.as_slice(), list))),
            Ok(None) => {
                self.phase = Phase::Live;
                Ok(None)
            }
            Err(fault) => Err(self.reset_by(fault)),
        }
    }

    /// Takes a receipt, and raises the delivered mark to its last notice, if that is higher.
    pub fn deliver(&mut self, receipt: Receipt) -> Result<(), DeliverRefusal>
        ensures did { Called M.Market D.Device self.old (Deliver receipt.numbers (deliver_said result)) self.new }
        ensures back { ReceiptBack receipt result }
        ensures kept { self.new.device ≡ self.old.device }
    {
        match self.judge_deliver(receipt.numbers) {
            Ok(last) => {
                let Receipt { numbers: _ } = receipt;
                if self.mark < last {
                    self.mark = last;
                }
                Ok(())
            }
            Err(reason) => Err(DeliverRefusal {
                receipt,
                fault: reason.into(),
            }),
        }
    }

    /// Takes a receipt, and changes nothing.
    pub fn shelve(&mut self, receipt: Receipt)
        ensures did { Called M.Market D.Device self.old (Shelve receipt.numbers) self.new }
        ensures kept { self.new.device ≡ self.old.device }
    {
        let Receipt { numbers: _ } = receipt;
    }
}
