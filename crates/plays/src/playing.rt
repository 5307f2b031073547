//! The run of a script.
use crate::answers::{Tokens, print_answer, print_call, print_made};
use crate::lines::{PhaseWord, RefusalWords};
use crate::reading::{read_script, script_in};
use book::shape::Continuous;
use call::shape::Crossing;
use device::Device;
use exchange::state::Exchange;
use jobs::faults::JobFault;
use jobs::matching::print_side;
use piles::build;
use play_words::script::{MarketKind, Script};
use records::commands::Side;
use records::numbers::HouseNumber;
use ruled_market::rules::Rules;
use ruled_market::shape::RestingMarket;
use runner::running::{Run, RunFault, run_script};
use runner::script::Call;
use std::alloc::AllocError;
use std::io;

// Each call with its answer: the script's, then those that spend what was left.
fn print_run(rt: &HostRuntime, script: &[Call], run: &Run) -> io::Result<()> {
    let mut tokens = Tokens::default();
    println!(rt; "setup -> done")?;
    for (call, entry) in script.iter().zip(run.log.iter()) {
        print_call(rt, call)?;
        print_answer(rt, &mut tokens, entry)?;
    }
    println!(rt; "closing")?;
    for entry in run.log.iter().skip(run.closing) {
        print_made(rt, entry)?;
        print_answer(rt, &mut tokens, entry)?;
    }
    Ok(())
}

// The numbers at the end, and the orders that rest.
fn print_end<R: Rules, D: Device>(
    rt: &HostRuntime,
    exchange: &Exchange<RestingMarket<R>, D>,
) -> io::Result<()> {
    let status = exchange.status();
    let (pages, commands, notices) = (status.pages.0, status.commands.0, status.notices.0);
    let (mark, covered, slot) = (status.mark.0, status.covered.0, status.slot as u8);
    println!(rt; "phase {}", PhaseWord(status.phase))?;
    println!(rt;
        "pages {pages} commands {commands} notices {notices} delivered {mark} covered {covered} slot {slot}"
    )?;
    print_side(rt, Side::Buy, exchange.market().buys())?;
    print_side(rt, Side::Sell, exchange.market().sells())
}

// Sets an exchange up on the device, and makes the calls. The error is the caller's: a device's type has a lifetime, and no
// function of it may name JobFault, which holds static text.
fn on_device<R: Rules, D: Device + Drop, E: From<io::Error> + From<AllocError>>(
    rt: &HostRuntime,
    house: HouseNumber,
    device: D,
    script: &[Call],
) -> Result<(), E> {
    let heap = rt.alloc();
    let mut exchange: Exchange<RestingMarket<R>, D> = Exchange::new(heap, house, device)?;
    match run_script(heap, &mut exchange, script) {
        Ok(run) => print_run(rt, script, &run)?,
        Err(RunFault::NoMemory) => return Err(AllocError.into()),
        Err(RunFault::Refused(fault)) => println!(rt; "setup -> {}", RefusalWords(fault))?,
    }
    Ok(print_end(rt, &exchange)?)
}

// Runs the script over the images of its drives: two, since the drives of a mirror are lent apart.
fn on_images<'a, R: Rules, E: From<io::Error> + From<AllocError>>(
    rt: &HostRuntime,
    script: &'a Script,
    first: &'a mut [u8],
    second: &'a mut [u8],
) -> Result<(), E> {
    let pile = build(rt.alloc(), &script.pile, first, second)?;
    on_device::<R, _, E>(rt, script.house, pile, &script.calls)
}

// The market is chosen once, from a word: what follows is one generic function.
fn play(rt: &HostRuntime, script: &Script) -> Result<(), JobFault> {
    let mut first = Vec::from_elem(rt.alloc(), 0, script.pile.first_bytes())?;
    let mut second = Vec::from_elem(rt.alloc(), 0, script.pile.second_bytes())?;
    match script.market {
        MarketKind::Book => on_images::<Continuous, JobFault>(rt, script, &mut first, &mut second),
        MarketKind::Call => on_images::<Crossing, JobFault>(rt, script, &mut first, &mut second),
    }
}

/// Runs the scripts in the files of these names, each under a line with its name; where there are none, that of standard input. A
/// line that cannot be read ends the job before anything of its script is run.
pub fn play_scripts(rt: &HostRuntime, names: &[&str]) -> Result<(), JobFault> {
    if names.is_empty() {
        return play(rt, &read_script(rt.alloc(), rt.stdin())?);
    }
    for name in names {
        println!(rt; "script {name}")?;
        play(rt, &script_in(rt, name)?)?;
    }
    Ok(())
}
