//! Whether the promises hold of a log.
ghost use Rattle.std.specs.Prelude.{◌≡◌, ℕ, vec_len, Decides, IfOk};
ghost use Rattle.protocol.specs.declared.phases.Phase.TheVariants.{Live};
ghost use Rattle.protocol.specs.Worlds.{rules_of};
ghost use Rattle.protocol.specs.Promises.{Pages, Promised, Recovers, OfRecord, RunsOver, EachKept};
ghost use Rattle.exchange.specs.Views.{view};
ghost use Rattle.runner.specs.Events.{handed_out, event_of, history};
ghost use Rattle.audit.specs.Books.{world, IsBook};
ghost use Rattle.records.specs.declared.numbers.HouseNumber.{HouseNumber as House};
ghost use Rattle.audit.specs.Keeping.{KeptEntry};

use crate::books::Book;
use crate::checks::has_answer;
use crate::covers::is_covered;
use crate::readings::Reader;
use device::Device;
use exchange::making::Status;
use exchange::state::Exchange;
use market::interface::Market;
use protocol::faults::ExchangeFault;
use protocol::phases::Phase;
use runner::log::{Entry, HandedOut};
use std::alloc::{AllocError, Global};

// Whether both are in the same state: a saved state loads as itself, so their bodies tell.
fn is_market_same<M: Market>(a: &M, b: &M) -> bool
    ensures { Decides result (M.means a.now ≡ M.means b.now) }
{
    let mut first = [0; 1536];
    let mut second = [0; 1536];
    a.save(&mut first);
    b.save(&mut second);
    first == second
}

// Whether an opening was refused for another reason than damage.
fn is_no_damage(fault: &ExchangeFault) -> bool
    ensures { Decides result (Recovers fault.now) }
{
    !matches!(fault.reason.number(), 17 | 18 | 19)
}

impl<M: Market> Book<M> {
    // Whether a receipt and its notices are the record's.
    fn has(&self, handed: &HandedOut) -> bool
        ensures { (house : House) (size : ℕ) (kept : Pages) → IsBook M.Market house size kept self.now → Decides result (OfRecord (world M.Market house size) kept (handed_out handed.now)) }
    {
        has_answer(&self.pages, handed)
    }

    // Whether an entry keeps what is promised of receipts, notices and openings.
    #[tactic(auto, unfolding(crate::specs::Keeping::KeptEntry))]
    fn keeps(&self, entry: &Entry) -> bool
        ensures { (house : House) (size : ℕ) (kept : Pages) → IsBook M.Market house size kept self.now → Decides result (KeptEntry (world M.Market house size) kept entry.now) }
    {
        match entry {
            Entry::Sync(_, _, Ok(handed)) => self.has(handed),
            Entry::Replay(_, Ok(Some(handed))) => self.has(handed),
            Entry::Open(Err(fault)) => is_no_damage(fault),
            Entry::Replay(_, Err(fault)) => is_no_damage(fault),
            Entry::Replay(_, Ok(None))
            | Entry::Sync(_, _, Err(_))
            | Entry::Open(Ok(_))
            | Entry::Stage(_, _)
            | Entry::Write(_)
            | Entry::Deliver(_, _)
            | Entry::Shelve(_)
            | Entry::Snapshot(_)
            | Entry::Restart
            | Entry::Spent => true,
        }
    }

    /// Whether every entry of a log does.
    pub(crate) fn keeps_all(&self, log: &[Entry]) -> bool
        ensures { (house : House) (size : ℕ) (kept : Pages) → IsBook M.Market house size kept self.now → Decides result (EachKept (world M.Market house size) kept (history log.now)) }
    {
        for entry in log {
            if !self.keeps(entry) {
                return false;
            }
        }
        true
    }

    // Whether the counts are the record's.
    fn has_counts(&self, status: &Status) -> bool
        ensures { Decides result ((status.now.pages.0 ≡ vec_len self.now.pages) × (status.now.commands.0 ≡ self.now.commands) × (status.now.notices.0 ≡ self.now.notices)) }
    {
        status.pages.0 == self.pages.len() as u64
            && status.commands.0 == self.commands
            && status.notices.0 == self.notices
    }

    /// Whether a live exchange has the record's counts and the record's market.
    pub(crate) fn is_carried_by<D: Device>(&self, exchange: &Exchange<M, D>) -> bool
        ensures { (house : House) (size : ℕ) (kept : Pages) → IsBook M.Market house size kept self.now → Decides result ((view M.Market D.Device exchange.now).phase ≡ Live → RunsOver (world M.Market house size) kept (view M.Market D.Device exchange.now)) }
    {
        let status = exchange.status();
        if status.phase != Phase::Live {
            return true;
        }
        self.has_counts(&status) && is_market_same(&self.market, exchange.market())
    }
}

/// Whether the promises hold of a log and of the exchange that it led to: yes exactly when they do. The log may be any, also
/// one that no exchange can have left.
pub fn audit_log<M: Market + Drop, D: Device>(
    heap: Global,
    exchange: &Exchange<M, D>,
    log: &[Entry],
) -> Result<bool, AllocError>
    ensures { IfOk result (λ kept. Decides kept (Promised (rules_of M.Market) (history log.now) (view M.Market D.Device exchange.now))) }
{
    let mut reader: Reader<M> = Reader::new(heap, exchange.status().house)?;
    reader.read(heap, log)?;
    let mut kept = reader.served;
    kept &= is_covered(&reader.delivered, reader.highest);
    kept &= reader.book.keeps_all(log);
    kept &= reader.book.is_carried_by(exchange);
    Ok(kept)
}
