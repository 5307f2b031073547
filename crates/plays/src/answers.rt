//! Calls, and what they answered.
use crate::lines::{CommandWords, ReceiptWords, RefusalWords, TicketWords};
use play_words::calls::ROOM;
use protocol::faults::ExchangeFault;
use protocol::tokens::TicketNumbers;
use records::commands::Command;
use runner::log::{Entry, HandedOut};
use runner::script::Call;
use std::io;
use texts::lines::NoticeLine;

/// How many tickets and receipts were answered so far.
#[derive(Clone, Copy, Default)]
pub(crate) struct Tokens {
    pub(crate) tickets: u64,
    pub(crate) receipts: u64,
}

// The bytes that are staged: the words of their command, or hex digits.
fn print_stage(rt: &HostRuntime, bytes: &[u8]) -> io::Result<()> {
    match Command::decode(bytes) {
        Ok(command) => print!(rt; "stage {}", CommandWords(command))?,
        Err(_) => {
            print!(rt; "stage hex ")?;
            for byte in bytes {
                print!(rt; "{byte:02x}")?;
            }
        }
    }
    Ok(())
}

// The length of the list that is lent, where it is not the usual one.
fn print_room(rt: &HostRuntime, room: usize) -> io::Result<()> {
    if room != ROOM {
        print!(rt; " {room}")?;
    }
    Ok(())
}

/// A call of the script.
pub(crate) fn print_call(rt: &HostRuntime, call: &Call) -> io::Result<()> {
    match call {
        Call::Stage(bytes) => print_stage(rt, bytes)?,
        Call::Write => print!(rt; "write")?,
        Call::Sync { ticket, room } => {
            print!(rt; "sync {ticket}")?;
            print_room(rt, *room)?;
        }
        Call::Deliver(receipt) => print!(rt; "deliver {receipt}")?,
        Call::Shelve(receipt) => print!(rt; "shelve {receipt}")?,
        Call::Snapshot => print!(rt; "snapshot")?,
        Call::Restart => print!(rt; "restart")?,
        Call::Open => print!(rt; "open")?,
        Call::Replay { room } => {
            print!(rt; "replay")?;
            print_room(rt, *room)?;
        }
    }
    Ok(())
}

/// A call that spends what was left. It reads as a call of the script does, but tells its ticket or receipt by what it says;
/// one text of both would first have to make one type of the two, with as many arms.
pub(crate) fn print_made(rt: &HostRuntime, entry: &Entry) -> io::Result<()> {
    match entry {
        Entry::Stage(bytes, _) => print_stage(rt, bytes)?,
        Entry::Write(_) => print!(rt; "write")?,
        Entry::Sync(ticket, room, _) => {
            print!(rt; "sync ticket {}", TicketWords(*ticket))?;
            print_room(rt, *room)?;
        }
        Entry::Deliver(receipt, _) => print!(rt; "deliver receipt {}", ReceiptWords(*receipt))?,
        Entry::Shelve(receipt) => print!(rt; "shelve receipt {}", ReceiptWords(*receipt))?,
        Entry::Snapshot(_) => print!(rt; "snapshot")?,
        Entry::Restart => print!(rt; "restart")?,
        Entry::Open(_) => print!(rt; "open")?,
        Entry::Replay(room, _) => {
            print!(rt; "replay")?;
            print_room(rt, *room)?;
        }
        Entry::Spent => print!(rt; "nothing")?,
    }
    Ok(())
}

fn print_refused(rt: &HostRuntime, fault: &ExchangeFault) -> io::Result<()> {
    println!(rt; " -> {}", RefusalWords(*fault))?;
    Ok(())
}

fn print_ticket(rt: &HostRuntime, tokens: &mut Tokens, ticket: TicketNumbers) -> io::Result<()> {
    tokens.tickets = tokens.tickets.saturating_add(1);
    let number = tokens.tickets;
    println!(rt; " -> ticket {number} {}", TicketWords(ticket))?;
    Ok(())
}

// A receipt, with its notices under it.
fn print_handed(rt: &HostRuntime, tokens: &mut Tokens, handed: &HandedOut) -> io::Result<()> {
    tokens.receipts = tokens.receipts.saturating_add(1);
    let number = tokens.receipts;
    println!(rt; " -> receipt {number} {}", ReceiptWords(handed.receipt))?;
    for notice in handed.notices.as_slice() {
        println!(rt; "{}", NoticeLine(*notice))?;
    }
    Ok(())
}

/// What a call answered.
pub(crate) fn print_answer(rt: &HostRuntime, tokens: &mut Tokens, entry: &Entry) -> io::Result<()> {
    match entry {
        Entry::Stage(_, Ok(number)) => {
            let number = number.0;
            println!(rt; " -> {number}")?;
        }
        Entry::Write(Ok(ticket)) => print_ticket(rt, tokens, *ticket)?,
        Entry::Sync(_, _, Ok(handed)) | Entry::Replay(_, Ok(Some(handed))) => {
            print_handed(rt, tokens, handed)?
        }
        Entry::Replay(_, Ok(None)) => println!(rt; " -> none")?,
        Entry::Open(Ok(page)) => {
            let page = page.0;
            println!(rt; " -> page {page}")?;
        }
        Entry::Stage(_, Err(fault))
        | Entry::Write(Err(fault))
        | Entry::Sync(_, _, Err(fault))
        | Entry::Deliver(_, Err(fault))
        | Entry::Snapshot(Err(fault))
        | Entry::Open(Err(fault))
        | Entry::Replay(_, Err(fault)) => print_refused(rt, fault)?,
        Entry::Spent => println!(rt; " -> spent already")?,
        _ => println!(rt; " -> done")?,
    }
    Ok(())
}
