//! A short day of an exchange on a real file, then runs on what the file holds: by others, which are refused, by its own house with
//! commands from standard input, and once more; and a file that cannot be written.
//!
//! It prints each thing that it did. What is printed is tested, not proved.
#![tactic(auto)]

use book::shape::Continuous;
use drives::Drive;
use exchange::state::Exchange;
use file_device::OnFile;
use play_words::script::MarketKind;
use records::commands::{Command, Side};
use records::numbers::{HouseNumber, Lots, Member, Price};
use ruled_market::shape::RestingMarket;
use runner::running::{RunFault, run_script};
use runner::script::Call;
use runs::running::{Format, Run, run_file};
use std::alloc::{AllocError, Global};
use std::fs::{File, OpenOptions};
use std::io;

type Hall<'a> = Exchange<RestingMarket<Continuous>, OnFile<'a>>;

const NAME: &str = "day.image";

const SECTORS: usize = 12;

const FILE_BYTES: u64 = 512 * SECTORS as u64;

const IMAGE_BYTES: usize = 513 * SECTORS;

fn hall<'a>(heap: Global, image: &'a mut [u8], file: File) -> Result<Hall<'a>, AllocError> {
    let drive = Drive::write_back(heap, image)?;
    Exchange::new(heap, HouseNumber(7), OnFile::new(drive, file))
}

fn stage(heap: Global, member: u32, side: Side, price: u32) -> Result<Call, AllocError> {
    let command = Command::Enter {
        member: Member(member),
        side,
        price: Price(price),
        lots: Lots(5),
    };
    Ok(Call::Stage(Vec::from_slice(heap, command.encode().as_bytes())?))
}

// Two pages, of which the first is delivered.
fn calls(heap: Global) -> Result<Vec<Call>, AllocError> {
    let mut calls = Vec::new(heap);
    calls.push(stage(heap, 1, Side::Buy, 104)?)?;
    calls.push(stage(heap, 2, Side::Sell, 103)?)?;
    calls.push(Call::Write)?;
    calls.push(Call::Sync {
        ticket: 1,
        room: 1024,
    })?;
    calls.push(Call::Deliver(1))?;
    calls.push(stage(heap, 3, Side::Sell, 105)?)?;
    calls.push(Call::Write)?;
    calls.push(Call::Sync {
        ticket: 2,
        room: 1024,
    })?;
    Ok(calls)
}

fn print_status(rt: &HostRuntime, hall: &Hall) -> anyhow::Result<()> {
    let status = hall.status();
    let (pages, commands, notices) = (status.pages.0, status.commands.0, status.notices.0);
    println!(rt; "pages {pages} commands {commands} notices {notices}")?;
    Ok(())
}

// Sets an exchange up on the file, and runs the day.
fn run_day(rt: &HostRuntime, file: File, calls: &[Call]) -> anyhow::Result<()> {
    let mut image = [0; IMAGE_BYTES];
    let mut hall = hall(rt.alloc(), &mut image, file)?;
    match run_script(rt.alloc(), &mut hall, calls) {
        Ok(_) => println!(rt; "set up, and a day of two pages")?,
        Err(RunFault::NoMemory) => println!(rt; "there is not enough memory")?,
        Err(RunFault::Refused(fault)) => {
            let reason = fault.reason.number();
            println!(rt; "set up refused {reason}")?;
        }
    }
    print_status(rt, &hall)
}

// The exchange of this house, run on the file: standard input holds its commands.
fn run(rt: &HostRuntime, house: u32, market: MarketKind, format: Format) -> io::Result<()> {
    let run = Run {
        file: NAME,
        mirror: None,
        house: HouseNumber(house),
        market,
        format,
    };
    if let Err(fault) = run_file(rt, run) {
        println!(rt; "refused: {fault}")?;
    }
    Ok(())
}

fn main(rt: HostRuntime) -> anyhow::Result<()> {
    let calls = calls(rt.alloc())?;
    let mut options = OpenOptions::new();
    options.read(true).write(true).create(true).truncate(true);
    let file = options.open(&rt, NAME)?;
    file.set_len(FILE_BYTES)?;
    run_day(&rt, file, &calls)?;
    println!(&rt; "the same file, by another house and in another market")?;
    run(&rt, 8, MarketKind::Book, Format::Text)?;
    run(&rt, 7, MarketKind::Call, Format::Text)?;
    println!(&rt; "the same file, run")?;
    run(&rt, 7, MarketKind::Book, Format::Text)?;
    println!(&rt; "the same file, run once more")?;
    run(&rt, 7, MarketKind::Book, Format::Csv)?;
    println!(&rt; "the same file, to be read alone")?;
    run_day(&rt, File::open(&rt, NAME)?, &calls)
}
