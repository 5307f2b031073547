//! Cuts the power at every call of a short script, by every plan, and prints what two sectors then read as.
//!
//! The script writes new contents (`a` and `b`) over old ones (`A` and `B`), syncs and reads. It is run on a write-back
//! drive and on a mirror of two, whose halves lose their power in turn. Each line is a call of the drive that loses its
//! power; on it stands, for each plan in order, what the two sectors read as after the wake (`-` for torn). What is
//! printed is tested, not proved.
#![tactic(auto)]

use device::Device;
use device::run::Operation;
use drives::Drive;
use image::{Fuse, Plan};
use mirror::Mirror;
use outcomes::{Outcome, Tally, observe};
use std::alloc::{AllocError, Global};

const SCRIPT: [Operation; 4] = [
    Operation::Write(0, [b'a'; 512]),
    Operation::Write(1, [b'b'; 512]),
    Operation::Sync,
    Operation::Read(0),
];

// Two sectors: a mark and 512 bytes each.
const BYTES: usize = 1026;

/// A call, and how many plans there are for it: four for each write that waits or is in course.
#[derive(Clone, Copy)]
struct Call {
    name: &'static str,
    plans: u32,
}

const WRITE_0: Call = Call {
    name: "write 0",
    plans: 4,
};

const WRITE_1: Call = Call {
    name: "write 1",
    plans: 16,
};

const SYNC: Call = Call {
    name: "sync",
    plans: 16,
};

const SYNC_AGAIN: Call = Call {
    name: "sync",
    plans: 1,
};

const READ_0: Call = Call {
    name: "read 0",
    plans: 1,
};

const READ_1: Call = Call {
    name: "read 1",
    plans: 1,
};

static DRIVE: [Call; 4] = [WRITE_0, WRITE_1, SYNC, READ_0];

static HALF_A: [Call; 7] = [WRITE_0, WRITE_1, SYNC, READ_0, READ_1, SYNC_AGAIN, READ_0];

static HALF_B: [Call; 6] = [WRITE_0, WRITE_1, SYNC, READ_0, READ_1, SYNC_AGAIN];

/// What loses its power, with its title and its calls: each match below is of these three.
#[derive(Clone, Copy)]
enum Target {
    WriteBack,
    HalfA,
    HalfB,
}

impl Target {
    fn title(self) -> &'static str {
        match self {
            Target::WriteBack => "write-back drive",
            Target::HalfA => "mirror, half A cut",
            Target::HalfB => "mirror, half B cut",
        }
    }

    // The calls of the drive that loses its power. A mirror's sync reads and compares both sectors between two syncs,
    // and half B is not read where A is readable.
    fn calls(self) -> &'static [Call] {
        match self {
            Target::WriteBack => &DRIVE,
            Target::HalfA => &HALF_A,
            Target::HalfB => &HALF_B,
        }
    }
}

// Puts the old contents down.
fn prepare(image: &mut [u8]) {
    let mut drive = Drive::direct(image);
    let _ = drive.write(0, &[b'A'; 512]);
    let _ = drive.write(1, &[b'B'; 512]);
}

fn try_cut(heap: Global, target: Target, fuse: Fuse) -> Result<Outcome, AllocError> {
    let mut image = [0; BYTES];
    prepare(&mut image);
    let mut a = Drive::write_back(heap, &mut image)?;
    let mut other = [0; BYTES];
    prepare(&mut other);
    let mut b = Drive::write_back(heap, &mut other)?;
    match target {
        Target::WriteBack => {
            a.put_fuse(fuse);
            return Ok(observe(&mut a, &SCRIPT));
        }
        Target::HalfA => a.put_fuse(fuse),
        Target::HalfB => b.put_fuse(fuse),
    }
    Ok(observe(&mut Mirror::new(a, b), &SCRIPT))
}

// The line of one call.
fn row(
    heap: Global,
    target: Target,
    before: u32,
    call: &Call,
    tally: &mut Tally,
) -> Result<String, AllocError> {
    let mut line = format!(in heap; "  {}:", call.name)?;
    for bits in 0..call.plans {
        let fuse = Fuse {
            left: before,
            plan: Plan { bits },
        };
        let outcome = try_cut(heap, target, fuse)?;
        tally.note(outcome);
        line.push(' ')?;
        line.push(outcome.first.letter())?;
        line.push(outcome.second.letter())?;
    }
    Ok(line)
}

fn run_all(rt: &HostRuntime, target: Target, tally: &mut Tally) -> anyhow::Result<()> {
    println!(rt; "{}", target.title())?;
    for (before, call) in (0u32..).zip(target.calls()) {
        let line = row(rt.alloc(), target, before, call, tally)?;
        println!(rt; "{line}")?;
    }
    Ok(())
}

fn print_tally(rt: &HostRuntime, what: &str, tally: &Tally) -> anyhow::Result<()> {
    let Tally {
        cuts,
        mixtures,
        torn,
    } = *tally;
    println!(rt; "{what}: {cuts} cuts, {mixtures} mixtures, {torn} torn sectors")?;
    Ok(())
}

fn main(rt: HostRuntime) -> anyhow::Result<()> {
    let mut drive = Tally::new();
    run_all(&rt, Target::WriteBack, &mut drive)?;
    let mut pair = Tally::new();
    run_all(&rt, Target::HalfA, &mut pair)?;
    run_all(&rt, Target::HalfB, &mut pair)?;
    print_tally(&rt, "write-back drive", &drive)?;
    print_tally(&rt, "mirror", &pair)
}
