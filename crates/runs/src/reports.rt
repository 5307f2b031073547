//! What a run tells, record by record.
ghost use Rattle.std.specs.Prelude.{Some};
ghost use Rattle.runs.specs.Records.{counts_record, receipt_record, notice_record, record_of};

use halls::markets::MarketWord;
use play_words::script::MarketKind;
use plays::lines::ReceiptWords;
use protocol::tokens::ReceiptNumbers;
use records::notices::{Kind, Notice};
use records::numbers::{CommandNumber, HouseNumber, NoticeNumber, PageNumber};
use std::fmt;
use texts::lines::NoticeLine;

/// How far a run has come.
#[derive(Clone, Copy)]
pub(crate) struct Counts {
    pub(crate) pages: PageNumber,
    pub(crate) commands: CommandNumber,
    pub(crate) notices: NoticeNumber,
}

/// One thing that is told.
#[derive(Clone, Copy)]
pub(crate) enum Report {
    /// The exchange is open, from the snapshot that covers this page.
    Opened {
        house: HouseNumber,
        market: MarketKind,
        page: PageNumber,
    },
    /// A page is safe.
    Receipt(ReceiptNumbers),
    Notice(Notice),
    /// A snapshot covers this page now.
    Snapshot(PageNumber),
    /// All pages of the journal are replayed, and commands can come.
    Live(Counts),
    /// The run has ended.
    Done(Counts),
}

// Counts in words.
#[derive(Clone, Copy)]
struct CountsWords(Counts);

impl fmt::Display for CountsWords {
    fn fmt<W: fmt::Write>(&self, f: &mut fmt::Formatter<W>) -> fmt::Result {
        let Counts {
            pages,
            commands,
            notices,
        } = self.0;
        let (pages, commands, notices) = (pages.0, commands.0, notices.0);
        write!(f, "pages {pages} commands {commands} notices {notices}")
    }
}

/// What is told, in words, for people.
#[derive(Clone, Copy)]
pub(crate) struct TextLine(pub(crate) Report);

impl fmt::Display for TextLine {
    fn fmt<W: fmt::Write>(&self, f: &mut fmt::Formatter<W>) -> fmt::Result {
        match self.0 {
            Report::Opened {
                house,
                market,
                page,
            } => {
                let (house, market, page) = (house.0, MarketWord(market), page.0);
                write!(f, "opened house {house} market {market} page {page}")
            }
            Report::Receipt(receipt) => write!(f, "receipt {}", ReceiptWords(receipt)),
            Report::Notice(notice) => write!(f, "{}", NoticeLine(notice)),
            Report::Snapshot(page) => write!(f, "snapshot of page {}", page.0),
            Report::Live(counts) => write!(f, "live {}", CountsWords(counts)),
            Report::Done(counts) => write!(f, "done {}", CountsWords(counts)),
        }
    }
}

// The parts of a record, each below with its own.
#[derive(Clone, Copy)]
struct CountsParts(Counts);

impl fmt::Display for CountsParts {
    ghost output = { λ c. Some (counts_record c.0) };

    fn fmt<W: fmt::Write>(&self, f: &mut fmt::Formatter<W>) -> fmt::Result {
        let Counts {
            pages,
            commands,
            notices,
        } = self.0;
        let (pages, commands, notices) = (pages.0, commands.0, notices.0);
        write!(f, ",{pages},{commands},{notices}")
    }
}

#[derive(Clone, Copy)]
struct ReceiptRecord(ReceiptNumbers);

impl fmt::Display for ReceiptRecord {
    ghost output = { λ r. Some (receipt_record r.0) };

    fn fmt<W: fmt::Write>(&self, f: &mut fmt::Formatter<W>) -> fmt::Result {
        let ReceiptNumbers {
            house,
            page,
            first,
            commands,
            notice,
            notices,
        } = self.0;
        let (house, page, first, notice) = (house.0, page.0, first.0, notice.0);
        write!(
            f,
            "receipt,{house},{page},{first},{commands},{notice},{notices}"
        )
    }
}

#[derive(Clone, Copy)]
struct NoticeRecord(Notice);

impl fmt::Display for NoticeRecord {
    ghost output = { λ v. Some (notice_record v.0.kind v.0) };

    fn fmt<W: fmt::Write>(&self, f: &mut fmt::Formatter<W>) -> fmt::Result {
        let NoticeRecord(notice) = *self;
        let (number, command, lots) = (notice.number.0, notice.command.0, notice.lots.0);
        let (order, member) = (notice.a.order.0, notice.a.member.0);
        match notice.kind {
            Kind::Fill => {
                let (sell, seller, price) = (notice.b.order.0, notice.b.member.0, notice.price.0);
                write!(
                    f,
                    "fill,{number},{command},{order},{member},{sell},{seller},{price},{lots}"
                )
            }
            Kind::Dropped => write!(f, "dropped,{number},{command},{order},{member},{lots}"),
            Kind::Cancelled => write!(f, "cancelled,{number},{command},{order},{member},{lots}"),
        }
    }
}

/// What is told, as a record with its parts between commas, for machines.
#[derive(Clone, Copy)]
pub(crate) struct CsvLine(pub(crate) Report);

impl fmt::Display for CsvLine {
    ghost output = { λ l. Some (record_of l.0) };

    fn fmt<W: fmt::Write>(&self, f: &mut fmt::Formatter<W>) -> fmt::Result {
        match self.0 {
            Report::Opened {
                house,
                market,
                page,
            } => {
                let (house, market, page) = (house.0, MarketWord(market), page.0);
                write!(f, "opened,{house},{market},{page}")
            }
            Report::Receipt(receipt) => write!(f, "{}", ReceiptRecord(receipt)),
            Report::Notice(notice) => write!(f, "{}", NoticeRecord(notice)),
            Report::Snapshot(page) => {
                let page = page.0;
                write!(f, "snapshot,{page}")
            }
            Report::Live(counts) => write!(f, "live{}", CountsParts(counts)),
            Report::Done(counts) => write!(f, "done{}", CountsParts(counts)),
        }
    }
}
