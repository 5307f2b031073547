//! What a log says: where the power was cut, what was opened, and what became of the pages that were sent.
ghost use Rattle.std.specs.Prelude.{◌≡◌, false, count_by};
ghost use Rattle.drill_parts.specs.Logs.{opens_well, added_by, lost_by, tally, fresh, first_from, ends_cut, is_cut, goes_live, watched, told};

use protocol::faults::ExchangeFault;
use records::numbers::PageNumber;
use records::refusals::Refusal;
use runner::log::Entry;

/// The page that was sent last, as its receipts tell of it.
#[derive(Clone, Copy)]
pub struct PageWatch {
    /// The last page that brought a receipt.
    pub last: PageNumber,
    /// Whether a page above it was sent, of which nothing is known.
    pub awaits: bool,
}

/// What an opening made of a page that was sent and had no receipt.
#[derive(Clone, Copy, PartialEq, Eq, Debug)]
pub enum PageEvent {
    Nothing,
    /// The opening brought it.
    Added,
    /// The opening is at its end, and did not.
    Lost,
}

// Whether an answer is a refusal since the power was cut.
fn ends_cut<T>(answer: &Result<T, ExchangeFault>) -> bool
    ensures { result ≡ ends_cut answer.now }
{
    match answer {
        Ok(_) => false,
        Err(fault) => fault.reason == Refusal::PowerCut,
    }
}

/// Whether the call was refused since the power was cut.
pub fn is_cut(entry: &Entry) -> bool
    ensures { result ≡ is_cut entry.now }
{
    match entry {
        Entry::Stage(_, answer) => ends_cut(answer),
        Entry::Write(answer) => ends_cut(answer),
        Entry::Sync(_, _, answer) => ends_cut(answer),
        Entry::Deliver(_, answer) | Entry::Snapshot(answer) => ends_cut(answer),
        Entry::Open(answer) => ends_cut(answer),
        Entry::Replay(_, answer) => ends_cut(answer),
        Entry::Shelve(_) | Entry::Restart | Entry::Spent => false,
    }
}

/// Whether the call found the journal's end, so that the exchange is live.
pub fn goes_live(entry: &Entry) -> bool
    ensures { result ≡ goes_live entry.now }
{
    matches!(entry, Entry::Replay(_, Ok(None)))
}

/// Whether the call opened the exchange.
pub fn opens_well(entry: &Entry) -> bool
    ensures { result ≡ opens_well entry.now }
{
    matches!(entry, Entry::Open(Ok(_)))
}

/// How many calls opened the exchange.
// A loop: what `filter` counts by a function of the crate is lost to the proof.
pub fn count_openings(log: &[Entry]) -> usize
    ensures { result ≡ count_by opens_well log.now }
{
    let mut openings = 0;
    for entry in log {
        if opens_well(entry) {
            openings += 1;
        }
    }
    openings
}

/// The next call at or after this place that was refused since the power was cut.
pub fn next_cut(log: &[Entry], from: usize) -> Option<usize>
    ensures { result ≡ first_from is_cut from 0 log.now }
{
    for (place, entry) in log.iter().enumerate() {
        if place >= from && is_cut(entry) {
            return Some(place);
        }
    }
    None
}

/// The next call at or after this place at which the exchange was live again.
pub fn next_live(log: &[Entry], from: usize) -> Option<usize>
    ensures { result ≡ first_from goes_live from 0 log.now }
{
    for (place, entry) in log.iter().enumerate() {
        if place >= from && goes_live(entry) {
            return Some(place);
        }
    }
    None
}

/// How many pages openings brought that had no receipt, and how many they did not bring.
#[derive(Clone, Copy)]
pub struct PageCounts {
    pub added: usize,
    pub lost: usize,
}

/// Follows a whole log.
pub fn count_pages(log: &[Entry]) -> PageCounts
    ensures added { result.added ≡ tally added_by fresh log.now }
    ensures lost { result.lost ≡ tally lost_by fresh log.now }
{
    let mut watch = PageWatch {
        last: PageNumber(0),
        awaits: false,
    };
    let mut counts = PageCounts { added: 0, lost: 0 };
    for entry in log {
        match watch.follow(entry) {
            PageEvent::Nothing => {}
            PageEvent::Added => counts.added += 1,
            PageEvent::Lost => counts.lost += 1,
        }
    }
    counts
}

impl PageWatch {
    /// Follows an entry: what it told of the page that was sent.
    pub fn follow(&mut self, entry: &Entry) -> PageEvent
        ensures after { self.new ≡ watched self.old entry.now }
        ensures told { result ≡ told self.old entry.now }
    {
        match entry {
            Entry::Write(Ok(_)) => self.awaits = true,
            Entry::Write(Err(fault)) if fault.reason == Refusal::PowerCut => self.awaits = true,
            Entry::Sync(_, _, Ok(handed)) => self.receive(handed.receipt.page),
            Entry::Replay(_, Ok(Some(handed))) if handed.receipt.page.0 > self.last.0 => {
                self.receive(handed.receipt.page);
                return PageEvent::Added;
            }
            Entry::Replay(_, Ok(None)) if self.awaits => {
                self.awaits = false;
                return PageEvent::Lost;
            }
            _ => {}
        }
        PageEvent::Nothing
    }

    // The page brings its receipt.
    fn receive(&mut self, page: PageNumber)
        ensures { self.new ≡ record { last = page; awaits = false } }
    {
        *self = PageWatch {
            last: page,
            awaits: false,
        };
    }
}
