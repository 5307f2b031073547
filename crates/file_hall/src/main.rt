//! Sets exchanges up on files, shows what the files hold, and tries what is refused: a second set-up over a file, house 0, a
//! mirror on one file, and a file that is none. Then it shows an image in memory, of an exchange that ran a script.
//!
//! It prints each thing that it did. What is printed is tested, not proved.
#![tactic(auto)]

use book::shape::Continuous;
use drives::Drive;
use exchange::state::Exchange;
use halls::faults::HallFault;
use halls::setting::{Setting, set_up_file};
use halls::showing::{show_file, show_image};
use play_words::calls::call_of;
use play_words::script::MarketKind;
use records::numbers::HouseNumber;
use ruled_market::shape::RestingMarket;
use runner::running::run_script;
use runner::script::Call;
use std::alloc::Global;
use std::io;

const NAME: &str = "hall.image";

const SECTORS: usize = 12;

const IMAGE_BYTES: usize = 513 * SECTORS;

// Three pages, of which a snapshot covers the first.
const SCRIPT: [&str; 13] = [
    "stage enter 1 buy 104 5",
    "stage enter 2 sell 103 3",
    "write",
    "sync 1",
    "deliver 1",
    "snapshot",
    "stage enter 3 sell 106 4",
    "write",
    "sync 2",
    "deliver 2",
    "stage cancel 1 1",
    "write",
    "sync 3",
];

fn tell(rt: &HostRuntime, done: Result<(), HallFault>) -> io::Result<()> {
    if let Err(fault) = done {
        println!(rt; "refused: {fault}")?;
    }
    Ok(())
}

fn setting(house: u32, market: MarketKind, force: bool) -> Setting<'static> {
    Setting {
        file: NAME,
        mirror: None,
        house: HouseNumber(house),
        market,
        sectors: SECTORS,
        force,
    }
}

fn mirror(other: &'static str, force: bool) -> Setting<'static> {
    Setting {
        mirror: Some(other),
        ..setting(9, MarketKind::Book, force)
    }
}

fn show_files(rt: &HostRuntime) -> io::Result<()> {
    tell(rt, show_file(rt, NAME))?;
    tell(rt, set_up_file(rt, setting(0, MarketKind::Book, false)))?;
    tell(rt, set_up_file(rt, setting(7, MarketKind::Book, false)))?;
    tell(rt, show_file(rt, NAME))?;
    tell(rt, set_up_file(rt, setting(8, MarketKind::Call, false)))?;
    tell(rt, show_file(rt, NAME))?;
    tell(rt, set_up_file(rt, setting(8, MarketKind::Call, true)))?;
    tell(rt, show_file(rt, NAME))
}

fn show_mirrors(rt: &HostRuntime) -> io::Result<()> {
    tell(rt, set_up_file(rt, mirror("other.image", false)))?;
    tell(rt, show_file(rt, "other.image"))?;
    tell(rt, set_up_file(rt, mirror("./hall.image", true)))?;
    tell(rt, set_up_file(rt, mirror("none/other.image", true)))?;
    tell(rt, show_file(rt, NAME))?;
    tell(rt, set_up_file(rt, mirror("other.image", true)))?;
    tell(rt, show_file(rt, "other.image"))
}

fn script(heap: Global) -> anyhow::Result<Vec<Call>> {
    let mut calls = Vec::new(heap);
    for line in SCRIPT {
        let words: Vec<&str> = line.split_whitespace().collect(heap)?;
        if let Ok(call) = call_of(heap, &words) {
            calls.push(call)?;
        }
    }
    Ok(calls)
}

// What an exchange of this house leaves on an image.
fn run_on(
    heap: Global,
    house: u32,
    image: &mut [u8; IMAGE_BYTES],
    calls: &[Call],
) -> anyhow::Result<()> {
    let mut exchange: Exchange<RestingMarket<Continuous>, _> = Exchange::new(
        heap,
        HouseNumber(house),
        Drive::direct(image),
    )?;
    let _ = run_script(heap, &mut exchange, calls);
    Ok(())
}

// An image as it is spoiled: a sector of it that cannot be read, a page with another first command, and a body that cannot be read.
fn show_spoiled(rt: &HostRuntime, image: &mut [u8; IMAGE_BYTES]) -> io::Result<()> {
    tell(rt, show_image(rt, "a day", image))?;
    image[513 * 9] = 1;
    tell(rt, show_image(rt, "with a torn page", image))?;
    image[513 * 9] = 0;
    image[513 * 9 + 20] = 99;
    tell(rt, show_image(rt, "with a bad page", image))?;
    image[513 * 6] = 1;
    tell(rt, show_image(rt, "with a torn body", image))
}

// The first snapshot of another image takes the place of the second one of this.
fn take_snapshot(image: &mut [u8; IMAGE_BYTES], other: &[u8; IMAGE_BYTES]) {
    image[513 * 4..513 * 8].copy_from_slice(&other[..513 * 4]);
}

// An image with the snapshots of two houses.
fn show_two(rt: &HostRuntime, image: &mut [u8; IMAGE_BYTES]) -> anyhow::Result<()> {
    let mut other = [0; IMAGE_BYTES];
    run_on(rt.alloc(), 8, &mut other, &[])?;
    take_snapshot(image, &other);
    tell(
        rt,
        show_image(rt, "with the snapshots of two houses", image),
    )?;
    Ok(())
}

fn main(rt: HostRuntime) -> anyhow::Result<()> {
    show_files(&rt)?;
    show_mirrors(&rt)?;
    let mut image = [0; IMAGE_BYTES];
    tell(&rt, show_image(&rt, "zeros", &mut image))?;
    run_on(rt.alloc(), 7, &mut image, &script(rt.alloc())?)?;
    show_spoiled(&rt, &mut image)?;
    show_two(&rt, &mut image)
}
