//! The same commands over an exchange on a file: 16 a page, each page on the disk before the next.
use crate::stream::Stream;
use book::shape::Book;
use device::Device;
use drives::Drive;
use exchange::state::Exchange;
use exchange::tokens::{DeliverRefusal, Receipt, SyncRefusal, Ticket};
use file_device::{OnFile, load_image};
use protocol::faults::ExchangeFault;
use records::notices::Notice;
use records::numbers::HouseNumber;
use records::pages::batches::MOST_COMMANDS;
use std::alloc::Global;
use std::fs::{File, OpenOptions};

const HOUSE: HouseNumber = HouseNumber(7);

// Gives a ticket up that came back: a reset exchange takes it.
fn give_up<D: Device>(exchange: &mut Exchange<Book, D>, ticket: Ticket) {
    exchange.restart();
    match exchange.sync(ticket, &mut []) {
        Ok(receipt) => unreachable(),
        Err(SyncRefusal::Back(ticket, fault)) => unreachable(),
        Err(SyncRefusal::Spent(_)) => {}
    }
}

fn deliver<D: Device>(
    exchange: &mut Exchange<Book, D>,
    receipt: Receipt,
) -> Result<(), ExchangeFault> {
    match exchange.deliver(receipt) {
        Ok(()) => Ok(()),
        Err(refusal) => {
            let DeliverRefusal { receipt, fault } = refusal;
            exchange.shelve(receipt);
            Err(fault)
        }
    }
}

fn stage_page<D: Device>(
    exchange: &mut Exchange<Book, D>,
    stream: &mut Stream,
) -> Result<(), ExchangeFault> {
    for _ in 0..MOST_COMMANDS {
        let command = stream.next_command(exchange.market());
        exchange.stage(command.encode().as_bytes())?;
    }
    Ok(())
}

// Writes what is staged and syncs it, and delivers its notices at once.
fn send_page<D: Device>(
    exchange: &mut Exchange<Book, D>,
    list: &mut [Notice],
) -> Result<(), ExchangeFault> {
    let ticket = exchange.write()?;
    match exchange.sync(ticket, list) {
        Ok(receipt) => deliver(exchange, receipt),
        Err(SyncRefusal::Spent(fault)) => Err(fault),
        Err(SyncRefusal::Back(ticket, fault)) => {
            give_up(exchange, ticket);
            Err(fault)
        }
    }
}

fn send_pages<D: Device>(
    exchange: &mut Exchange<Book, D>,
    list: &mut [Notice],
    pages: u64,
) -> Result<(), ExchangeFault> {
    let mut stream = Stream::new();
    exchange.open()?;
    if let Some(receipt) = exchange.replay(list)? {
        exchange.shelve(receipt);
    }
    for _ in 0..pages {
        stage_page(exchange, &mut stream)?;
        send_page(exchange, list)?;
    }
    Ok(())
}

fn on_file<'a>(heap: Global, file: File, image: &'a mut [u8]) -> anyhow::Result<OnFile<'a>> {
    load_image(&file, image);
    Ok(OnFile::new(Drive::write_back(heap, image)?, file))
}

/// Sends so many pages over the exchange that was just set up on this file, and prints what it has then.
pub(crate) fn send(rt: &HostRuntime, name: &str, pages: u64) -> anyhow::Result<()> {
    let heap = rt.alloc();
    let mut options = OpenOptions::new();
    options.read(true).write(true);
    let file = options.open(rt, name)?;
    let sectors = (file.metadata()?.len() / 512).min(4096) as usize;
    let mut image = Vec::from_elem(heap, 0, 513 * sectors)?;
    let device = on_file(heap, file, &mut image)?;
    let mut exchange: Exchange<Book, OnFile<'_>> = Exchange::new(heap, HOUSE, device)?;
    let mut list = vec![in heap; Notice::default(); 1024]?;
    if let Err(fault) = send_pages(&mut exchange, list.as_mut_slice(), pages) {
        println!(rt; "refused {}", fault.reason.number())?;
    }
    let status = exchange.status();
    let (pages, commands, notices) = (status.pages.0, status.commands.0, status.notices.0);
    println!(rt; "{pages} pages, {commands} commands, {notices} notices")?;
    Ok(())
}
