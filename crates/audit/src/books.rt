//! A record, as a fresh market has it.
ghost use Rattle.std.specs.Prelude.{◌≡◌, ℕ, ◌+◌, ◌*◌, ◌^◌, ◌<◌, ◌≤◌, [], ◌∷◌, ◌++◌, length, vec_len, IfOk, OnOk};
ghost use Rattle.market.specs.Lists.{over};
ghost use Rattle.records.specs.Notices.{counted};
ghost use Rattle.batches.specs.Given.{after_all, given_by};
ghost use Rattle.protocol.specs.Promises.{Pages};
ghost use Rattle.records.specs.declared.numbers.HouseNumber.{HouseNumber as House};
ghost use Rattle.audit.specs.Books.{IsBook};

use batches::apply_page;
use market::interface::Market;
use protocol::tokens::ReceiptNumbers;
use records::commands::Command;
use records::notices::Notice;
use records::numbers::{CommandNumber, HouseNumber, NoticeNumber, PageNumber};
use runner::log::HandedOut;
use std::alloc::{AllocError, Global};

/// What each page of the record is answered with, the counts, and the market that has taken all of it.
#[derive(Drop)]
pub(crate) struct Book<M> {
    pub(crate) house: HouseNumber,
    pub(crate) market: M,
    pub(crate) commands: u64,
    pub(crate) notices: u64,
    pub(crate) pages: Vec<HandedOut>,
}

// Applies a page, and lends the whole list.
fn apply_into<M: Market>(
    market: &mut M,
    page: &[Command],
    before: u64,
    list: &mut Vec<Notice>,
) -> usize
    requires room { 64 * length page.now ≤ vec_len list.old }
    requires fits { before + 64 * length page.now < 2 ^ 64 }
    ensures state { M.means market.new ≡ after_all M.step (M.means market.old) page.now }
    ensures number { result ≡ length (given_by M.step (M.means market.old) page.now) }
    ensures list { list.new.items ≡ over list.old.items (counted before (given_by M.step (M.means market.old) page.now)) }
{
    apply_page(market, page, NoticeNumber(before), list.as_mut_slice())
}

// Takes a page's commands: its notices, counted on from those before. (A sum that does not fit is told as memory that gave out:
// so many notices would not have found room.)
fn page_notices<M: Market>(
    heap: Global,
    market: &mut M,
    page: &[Command],
    before: u64,
) -> Result<Vec<Notice>, AllocError>
    ensures state { OnOk result (M.means market.new ≡ after_all M.step (M.means market.old) page.now) }
    ensures notices { IfOk result (λ v. v.items ≡ counted before (given_by M.step (M.means market.old) page.now)) }
{
    let room = page.len().checked_mul(64).ok_or(AllocError)?;
    before.checked_add(room as u64).ok_or(AllocError)?;
    let mut list = vec![in heap; Notice::default(); room]?;
    let n = apply_into(market, page, before, &mut list);
    list.truncate(n);
    Ok(list)
}

impl<M: Market> Book<M> {
    /// That of an empty record.
    pub(crate) fn new(heap: Global, house: HouseNumber) -> Result<Book<M>, AllocError>
        ensures { IfOk result (λ b. (size : ℕ) → IsBook M.Market house size [] b) }
    {
        Ok(Book {
            house,
            market: M::new(heap)?,
            commands: 0,
            notices: 0,
            pages: Vec::new(heap),
        })
    }

    /// Adds a page at the record's end.
    pub(crate) fn add(&mut self, heap: Global, page: &[Command]) -> Result<(), AllocError>
        ensures { OnOk result ((house : House) (size : ℕ) (kept : Pages) → IsBook M.Market house size kept self.old → IsBook M.Market house size (kept ++ (page.now ∷ [])) self.new) }
    {
        let number = (self.pages.len() as u64).checked_add(1).ok_or(AllocError)?;
        let first = self.commands.checked_add(1).ok_or(AllocError)?;
        let notice = self.notices.checked_add(1).ok_or(AllocError)?;
        let (commands, notices) = (
            page.len() as u64,
            page_notices(heap, &mut self.market, page, self.notices)?,
        );
        let receipt = ReceiptNumbers {
            house: self.house,
            page: PageNumber(number),
            first: CommandNumber(first),
            commands,
            notice: NoticeNumber(notice),
            notices: notices.len() as u64,
        };
        self.commands = self.commands.checked_add(commands).ok_or(AllocError)?;
        self.notices = self.notices.checked_add(receipt.notices).ok_or(AllocError)?;
        Ok(self.pages.push(HandedOut { receipt, notices })?)
    }
}
