//! The lines that a drill prints.
use crate::cuts::{Cut, Half};
use crate::table::Table;
use image::Fuse;
use piles::{DriveKind, DriveShape, PartShape, PileShape, WholeShape};
use play_words::script::{MarketKind, Script};
use std::io;

fn print_base(rt: &HostRuntime, base: usize) -> io::Result<()> {
    if base > 0 {
        print!(rt; " offset {base}")?;
    }
    Ok(())
}

fn print_fuses(rt: &HostRuntime, fuses: &[Fuse]) -> io::Result<()> {
    let mut before = " cuts ";
    for fuse in fuses {
        let (left, plan) = (fuse.left, fuse.plan.bits);
        print!(rt; "{before}{left}:{plan}")?;
        before = ",";
    }
    Ok(())
}

fn print_drive(rt: &HostRuntime, drive: &DriveShape) -> io::Result<()> {
    let kind = match drive.kind() {
        DriveKind::Direct => "direct",
        DriveKind::WriteBack => "writeback",
    };
    let sectors = drive.sectors();
    print!(rt; " {kind} {sectors}")?;
    print_fuses(rt, drive.fuses())
}

fn print_part(rt: &HostRuntime, part: &PartShape) -> io::Result<()> {
    print_base(rt, part.base)?;
    print_drive(rt, &part.drive)
}

// The device line of a script.
fn print_pile(rt: &HostRuntime, pile: &PileShape) -> io::Result<()> {
    print!(rt; "device")?;
    print_base(rt, pile.base)?;
    match &pile.whole {
        WholeShape::Part(part) => print_part(rt, part),
        WholeShape::Mirror(a, b) => {
            print!(rt; " mirror")?;
            print_part(rt, a)?;
            print_part(rt, b)
        }
    }
}

/// What is drilled.
pub(crate) fn print_head(
    rt: &HostRuntime,
    name: &str,
    script: &Script,
    most: u32,
) -> io::Result<()> {
    let (house, calls) = (script.house.0, script.calls.len());
    let market = match script.market {
        MarketKind::Book => "book",
        MarketKind::Call => "call",
    };
    println!(rt; "drill {name}")?;
    println!(rt; "house {house}, market {market}, calls {calls}, plans a cut at most {most}")?;
    print_pile(rt, &script.pile)?;
    println!(rt;)?;
    Ok(())
}

/// A fault, and the device line that shows it.
pub(crate) fn print_fault(rt: &HostRuntime, pile: &PileShape) -> io::Result<()> {
    print!(rt; "fault: ")?;
    print_pile(rt, pile)?;
    println!(rt;)?;
    Ok(())
}

fn drive_number(half: Half) -> u8 {
    match half {
        Half::First => 1,
        Half::Second => 2,
    }
}

/// A cut in the set-up.
pub(crate) fn print_set_up(rt: &HostRuntime, half: Half, left: u32) -> io::Result<()> {
    let drive = drive_number(half);
    println!(rt; "drive {drive} cut {left}: set up")?;
    Ok(())
}

/// A cut with its plans, and how many runs it took.
pub(crate) fn print_cut(
    rt: &HostRuntime,
    half: Half,
    cut: Cut,
    plans: u32,
    runs: u64,
) -> io::Result<()> {
    let drive = drive_number(half);
    let Cut { left, call, writes } = cut;
    let call = call.saturating_add(1);
    println!(rt;
        "drive {drive} cut {left}: call {call}, writes {writes}, plans {plans}, runs {runs}"
    )?;
    Ok(())
}

/// A cut of a half with all cuts of the other one, and how many runs these took.
pub(crate) fn print_pairs(
    rt: &HostRuntime,
    half: Half,
    cut: Cut,
    moments: u64,
    runs: u64,
) -> io::Result<()> {
    let drive = drive_number(half);
    let left = cut.left;
    println!(rt;
        "both drives, {drive} first at cut {left}: cuts of the other {moments}, runs {runs}"
    )?;
    Ok(())
}

/// The table.
pub(crate) fn print_table(rt: &HostRuntime, table: &Table) -> io::Result<()> {
    let Table {
        runs,
        cuts,
        plans,
        ..
    } = *table;
    println!(rt; "runs {runs}")?;
    println!(rt; "first cuts {cuts}, plans {plans}")?;
    let (cuts, plans) = (table.second_cuts, table.second_plans);
    println!(rt; "second cuts {cuts}, plans {plans}")?;
    let (cuts, plans) = (table.pairs, table.pair_plans);
    println!(rt; "cuts of both drives {cuts}, plans {plans}")?;
    let (openings, added, lost) = (table.openings, table.added, table.lost);
    println!(rt; "openings {openings}")?;
    println!(rt; "pages added by an opening {added}")?;
    println!(rt; "pages lost that had no receipt {lost}")?;
    let (slowest, faults) = (table.slowest, table.faults);
    println!(rt; "slowest opening, in calls of a drive {slowest}")?;
    println!(rt; "faults {faults}")?;
    Ok(())
}
