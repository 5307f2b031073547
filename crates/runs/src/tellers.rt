//! Who is told.
use crate::reports::{CsvLine, Report, TextLine};
use protocol::tokens::ReceiptNumbers;
use records::notices::Notice;
use records::refusals::Refusal;
use std::alloc::Global;
use std::io;
use std::io::{BufWriter, Write};
use words::LineFault;

/// In which words it is told.
#[derive(Clone, Copy, PartialEq, Eq)]
pub enum Format {
    /// For people.
    Text,
    /// For machines.
    Csv,
}

/// The output, which is sent on with each `flush`.
#[derive(Drop)]
pub(crate) struct Teller<W: Write + Drop> {
    format: Format,
    out: BufWriter<W>,
}

impl<W: Write + Drop> Teller<W> {
    pub(crate) fn new(heap: Global, format: Format, out: W) -> io::Result<Teller<W>> {
        let out = BufWriter::new(heap, out)?;
        Ok(Teller { format, out })
    }

    // One thing more; it may not be sent on yet.
    fn put(&mut self, report: Report) -> io::Result<()> {
        match self.format {
            Format::Text => writeln!(self.out, "{}", TextLine(report)),
            Format::Csv => writeln!(self.out, "{}", CsvLine(report)),
        }
    }

    /// Tells one thing.
    pub(crate) fn tell(&mut self, report: Report) -> io::Result<()> {
        self.put(report)?;
        self.out.flush()
    }

    /// Tells of a receipt and of the notices that came with it.
    pub(crate) fn tell_page(
        &mut self,
        receipt: ReceiptNumbers,
        notices: &[Notice],
    ) -> io::Result<()> {
        self.put(Report::Receipt(receipt))?;
        for notice in notices {
            self.put(Report::Notice(*notice))?;
        }
        self.out.flush()
    }

    /// Tells of a line that was refused.
    pub(crate) fn tell_refused(
        &mut self,
        line: u64,
        reason: Refusal,
        fault: LineFault,
    ) -> io::Result<()> {
        let reason = reason.number();
        match self.format {
            Format::Text => writeln!(self.out, "line {line} refused {reason}: {fault}")?,
            Format::Csv => writeln!(self.out, "refused,{line},{reason}")?,
        }
        self.out.flush()
    }
}
