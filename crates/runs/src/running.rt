//! The job.
ghost use Rattle.std.specs.Prelude.{◌≡◌, ◌⊎◌, OnOk};
ghost use Rattle.console.specs.Inputs.{held};
ghost use Rattle.runs.specs.Asks.{Asks};
ghost use Rattle.runs.specs.Pages.{Done};
ghost use Rattle.runs.specs.declared.asks.Ask.{Ask};

use crate::asks::{Ask, AskFault, ask_of};
use crate::faults::RunFault;
use crate::files::{Files, load_files};
use crate::floor::Floor;
pub use crate::tellers::Format;
use crate::tellers::Teller;
use book::shape::Continuous;
use call::shape::Crossing;
use console::input::LineBuffer;
use console::input::lines::each_line;
use device::Device;
use drives::Drive;
use exchange::state::Exchange;
use file_device::OnFile;
use halls::owners::Owner;
use jobs::reading::range_fault;
use market::interface::Market;
use mirror::Mirror;
use play_words::script::MarketKind;
use records::notices::Notice;
use records::numbers::HouseNumber;
use records::refusals::Refusal;
use ruled_market::rules::Rules;
use ruled_market::shape::RestingMarket;
use std::alloc::{AllocError, Global};
use std::fs::File;
use std::io;
use std::io::Write;
use words::LineFault;

/// What is run, and on which file or files.
#[derive(Clone, Copy)]
pub struct Run<'w> {
    pub file: &'w str,
    /// The second file, where the exchange lies on a mirror of two.
    pub mirror: Option<&'w str>,
    pub house: HouseNumber,
    pub market: MarketKind,
    pub format: Format,
}

// Does what a line asks for: a command is staged, or refused and told of.
fn do_ask<M: Market, D: Device, W: Write + Drop>(
    floor: &mut Floor<M, D, W>,
    line: u64,
    ask: Ask,
) -> Result<(), RunFault>
    ensures { OnOk result (Done M.Market D.Device floor.old.exchange ask floor.new.exchange) }
{
    match ask {
        Ask::Nothing => Ok(()),
        Ask::Commit => floor.commit(),
        Ask::Take(command) => match floor.take(&command)? {
            None => Ok(()),
            Some(Refusal::NumbersSpent) => {
                floor.tell_refused(line, Refusal::NumbersSpent, LineFault::Spent)
            }
            Some(reason) => floor.tell_refused(line, reason, range_fault(&command)),
        },
    }
}

// Takes a line; one that asks for nothing that can be done is told of.
fn take_line<M: Market, D: Device, W: Write + Drop>(
    heap: Global,
    floor: &mut Floor<M, D, W>,
    line: u64,
    buffer: &LineBuffer,
) -> Result<(), RunFault>
    ensures { OnOk result ((floor.new.exchange ≡ floor.old.exchange) ⊎ ((ask : Ask) × Asks (held buffer.now) ask × Done M.Market D.Device floor.old.exchange ask floor.new.exchange)) }
{
    match ask_of(heap, buffer) {
        Ok(ask) => do_ask(floor, line, ask),
        Err(AskFault::Line(fault)) => floor.tell_refused(line, Refusal::NotACommand, fault),
        Err(AskFault::NoMemory) => Err(RunFault::NoMemory),
    }
}

// A day of the exchange on this device.
fn run_on<R: Rules, D: Device + Drop>(
    rt: &HostRuntime,
    run: Run,
    device: D,
) -> Result<(), RunFault> {
    let heap = rt.alloc();
    let exchange: Exchange<RestingMarket<R>, D> = Exchange::new(heap, run.house, device)?;
    let teller = Teller::new(heap, run.format, io::writer(rt))?;
    let list = vec![in heap; Notice::default(); 1024]?;
    let mut floor = Floor {
        exchange,
        list,
        teller,
    };
    floor.open(run.market)?;
    each_line(
        heap,
        rt.stdin(),
        |line, buffer| take_line(heap, &mut floor, line, buffer),
    )?;
    floor.close()
}

// The file of an image in memory, as a device.
fn on_file<'a>(heap: Global, file: File, image: &'a mut [u8]) -> Result<OnFile<'a>, AllocError> {
    Ok(OnFile::new(Drive::write_back(heap, image)?, file))
}

// A day on one file, or on the two of a mirror.
fn run_over<R: Rules>(rt: &HostRuntime, run: Run) -> Result<(), RunFault> {
    let heap = rt.alloc();
    let owner = Owner {
        house: run.house,
        code: R::CODE,
    };
    match load_files(rt, run.file, run.mirror, owner)? {
        Files::One(mut first) => {
            let device = on_file(heap, first.file, &mut first.image)?;
            run_on::<R, _>(rt, run, device)
        }
        Files::Two(mut first, mut second) => {
            let one = on_file(heap, first.file, &mut first.image)?;
            let two = on_file(heap, second.file, &mut second.image)?;
            run_on::<R, _>(rt, run, Mirror::new(one, two))
        }
    }
}

// The market is chosen once, from a word: what follows is one generic function.
/// Opens the exchange on its file or files, hands out again what the journal holds, and takes the commands of standard input.
/// Until all files are seen to be good nothing is written.
pub fn run_file(rt: &HostRuntime, run: Run) -> Result<(), RunFault> {
    match run.market {
        MarketKind::Book => run_over::<Continuous>(rt, run),
        MarketKind::Call => run_over::<Crossing>(rt, run),
    }
}
