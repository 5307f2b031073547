//! A log, read from its first entry on.
ghost use Rattle.std.specs.Prelude.{◌≡◌, ℕ, true, [], ◌∷◌, ◌++◌, length, MatchOption, Ok, Err, Some, None, IfOk, OnOk};
ghost use Rattle.records.specs.declared.numbers.CommandNumber.{CommandNumber as Place};
ghost use Rattle.records.specs.declared.numbers.HouseNumber.{HouseNumber as House};
ghost use Rattle.records.specs.declared.numbers.PageNumber.{PageNumber as Page};
ghost use Rattle.protocol.specs.declared.tokens.TicketNumbers.{TicketNumbers as Ticket};
ghost use Rattle.protocol.specs.declared.faults.ExchangeFault.{ExchangeFault as Fault};
ghost use Rattle.protocol.specs.Steps.{Event, Stage, Write, Sync, Deliver, Open, Replay};
ghost use Rattle.protocol.specs.Promises.{Pages, added, is_cut};
ghost use Rattle.runner.specs.Events.{handed_out, history};
ghost use Rattle.audit.specs.Readings.{sent_of, Reads, ReadOn, ReadEntry, Refused, breaks};

use crate::books::Book;
use crate::checks::{Opening, are_served};
use crate::covers::last_notice;
use market::interface::Market;
use protocol::faults::ExchangeFault;
use protocol::tokens::ReceiptNumbers;
use records::commands::Command;
use records::notices::Notice;
use records::numbers::{HouseNumber, PageNumber};
use runner::log::{Entry, HandedOut};
use std::alloc::{AllocError, Global};
use std::mem::replace;

/// The page that was sent to the device last, with its number.
#[derive(Drop)]
pub(crate) struct SentPage {
    pub(crate) number: u64,
    pub(crate) page: Vec<Command>,
}

/// What was read of a log so far.
#[derive(Drop)]
pub(crate) struct Reader<M> {
    pub(crate) book: Book<M>,
    pub(crate) draft: Vec<Command>,
    pub(crate) sent: Option<SentPage>,
    // In 128 bits: a log may hold any numbers.
    pub(crate) highest: u128,
    pub(crate) delivered: Vec<ReceiptNumbers>,
    pub(crate) handed: Vec<Notice>,
    pub(crate) openings: Vec<Opening>,
    pub(crate) served: bool,
}

// Whether the call was cut.
fn was_cut(fault: &ExchangeFault) -> bool
    ensures { result ≡ is_cut fault.now }
{
    fault.reason.number() == 15
}

// The sent page, if a receipt with this number is its, and a record of so many pages has it not yet.
fn joining(sent: &Option<SentPage>, pages: usize, number: PageNumber) -> Option<&[Command]>
    ensures { MatchOption result ((kept : Pages) → length kept ≡ pages → added number.0 (sent_of sent.now) kept ≡ kept) (λ p. (kept : Pages) → length kept ≡ pages → added number.0 (sent_of sent.now) kept ≡ kept ++ (p.now ∷ [])) }
{
    match sent {
        Some(sent) if number.0 == sent.number && (pages as u64) < sent.number => Some(&sent.page),
        _ => None,
    }
}

impl<M: Market> Reader<M> {
    /// Nothing is read yet.
    pub(crate) fn new(heap: Global, house: HouseNumber) -> Result<Reader<M>, AllocError>
        ensures { IfOk result (λ r. (size : ℕ) → Reads M.Market house size [] r) }
    {
        Ok(Reader {
            book: Book::new(heap, house)?,
            draft: Vec::new(heap),
            sent: None,
            highest: 0,
            delivered: Vec::new(heap),
            handed: Vec::new(heap),
            openings: Vec::new(heap),
            served: true,
        })
    }

    // A command was staged.
    fn drafts(&mut self, bytes: &[u8]) -> Result<(), AllocError>
        ensures { OnOk result ((n : Place) → ReadOn M.Market (Stage bytes.now (Ok n)) self.old self.new) }
    {
        if let Ok(command) = Command::decode(bytes) {
            self.draft.push(command)?;
        }
        Ok(())
    }

    // The draft was sent to the device.
    fn sends(&mut self, heap: Global) -> Result<(), AllocError>
        ensures sent { OnOk result ((t : Ticket) → ReadOn M.Market (Write (Ok t)) self.old self.new) }
    {
        let number = (self.book.pages.len() as u64)
            .checked_add(1)
            .ok_or(AllocError)?;
        let page = replace(&mut self.draft, Vec::new(heap));
        self.sent = Some(SentPage { number, page });
        Ok(())
    }

    // It was, and the write was cut.
    fn sends_in_the_dark(&mut self, heap: Global) -> Result<(), AllocError>
        ensures { OnOk result ((f : Fault) → is_cut f ≡ true → ReadOn M.Market (Write (Err f)) self.old self.new) }
    {
        self.sends(heap)?;
        self.openings.clear();
        Ok(())
    }

    // A restart, or a 15 of another call.
    fn breaks(&mut self)
        ensures { (e : Event) → breaks e ≡ true → ReadOn M.Market e self.old self.new }
    {
        self.draft.clear();
        self.openings.clear();
    }

    // A receipt was answered. The sent page joins the record, if it is the receipt's and not there yet.
    fn answers(&mut self, heap: Global, handed: &HandedOut) -> Result<(), AllocError>
        ensures synced { OnOk result ((t : Ticket) (room : ℕ) → ReadOn M.Market (Sync t room (Ok (handed_out handed.now))) self.old self.new) }
        ensures replayed { OnOk result ((room : ℕ) → ReadOn M.Market (Replay room (Ok (Some (handed_out handed.now)))) self.old self.new) }
    {
        self.handed.extend_from_slice(&handed.notices)?;
        if let Some(page) = joining(&self.sent, self.book.pages.len(), handed.receipt.page) {
            self.book.add(heap, page)?;
        }
        Ok(())
    }

    // A receipt was delivered.
    fn delivers(&mut self, receipt: &ReceiptNumbers) -> Result<(), AllocError>
        ensures { OnOk result (ReadOn M.Market (Deliver receipt.now (Ok tt)) self.old self.new) }
    {
        self.delivered.push(*receipt)?;
        self.highest = self.highest.max(last_notice(receipt));
        Ok(())
    }

    // An open answered a page.
    fn opens(&mut self) -> Result<(), AllocError>
        ensures { OnOk result ((p : Page) → ReadOn M.Market (Open (Ok p)) self.old self.new) }
    {
        let opening = Opening {
            above: self.highest,
            from: self.handed.len(),
        };
        Ok(self.openings.push(opening)?)
    }

    // A replay answered none: the exchange is live.
    fn reaches(&mut self)
        ensures { (room : ℕ) → ReadOn M.Market (Replay room (Ok None)) self.old self.new }
    {
        self.served &= are_served(&self.book.pages, &self.handed, &self.openings);
    }

    // A call other than write was refused. (Answers as the other steps do, and always well.)
    fn refused(&mut self, fault: &ExchangeFault) -> Result<(), AllocError>
        ensures { (e : Event) → Refused e fault.now → ReadOn M.Market e self.old self.new }
    {
        if was_cut(fault) {
            self.breaks();
        }
        Ok(())
    }

    /// Reads an entry more.
    // An arm each where two would be one by an or-pattern: what is told of those has no names that last.
    pub(crate) fn note(&mut self, heap: Global, entry: &Entry) -> Result<(), AllocError>
        ensures { OnOk result (ReadEntry M.Market entry.now self.old self.new) }
    {
        match entry {
            Entry::Stage(bytes, Ok(_)) => self.drafts(bytes),
            Entry::Write(Ok(_)) => self.sends(heap),
            Entry::Write(Err(fault)) => {
                if was_cut(fault) {
                    return self.sends_in_the_dark(heap);
                }
                Ok(())
            }
            Entry::Sync(_, _, Ok(handed)) => self.answers(heap, handed),
            Entry::Replay(_, Ok(Some(handed))) => self.answers(heap, handed),
            Entry::Deliver(receipt, Ok(())) => self.delivers(receipt),
            Entry::Open(Ok(_)) => self.opens(),
            Entry::Replay(_, Ok(None)) => {
                self.reaches();
                Ok(())
            }
            Entry::Restart => {
                self.breaks();
                Ok(())
            }
            Entry::Stage(_, Err(fault)) => self.refused(fault),
            Entry::Sync(_, _, Err(fault)) => self.refused(fault),
            Entry::Deliver(_, Err(fault)) => self.refused(fault),
            Entry::Snapshot(Err(fault)) => self.refused(fault),
            Entry::Open(Err(fault)) => self.refused(fault),
            Entry::Replay(_, Err(fault)) => self.refused(fault),
            Entry::Shelve(_) | Entry::Snapshot(Ok(())) | Entry::Spent => Ok(()),
        }
    }

    /// Reads a log.
    pub(crate) fn read(&mut self, heap: Global, log: &[Entry]) -> Result<(), AllocError>
        ensures { OnOk result ((house : House) (size : ℕ) → Reads M.Market house size [] self.old → Reads M.Market house size (history log.now) self.new) }
    {
        for entry in log {
            self.note(heap, entry)?;
        }
        Ok(())
    }
}
