//! What a cut leaves: operations are run on a device until its fuse cuts one, the device is woken, and its sectors are
//! read. Works on any device.
//!
//! Proved: what is seen of a sector is what it then reads as, and what the tally counts (specs/Outcomes). Nothing is
//! trusted but the toolchain.
#![tactic(auto)]

ghost use Rattle.std.specs.Prelude.{◌≡◌};
ghost use Rattle.outcomes.specs.Outcomes.{Observed, RanAndWoke, SawSector};

use device::run::{Operation, run};
use device::{Device, read_whole};
pub use seen::{Outcome, Seen, Tally};

pub mod seen;

// `kept` relates two moments, which no type can hold.
// Runs the operations in order until one is cut, and wakes the device; whether one was cut.
fn run_and_wake<D: Device>(device: &mut D, script: &[Operation]) -> bool
    ensures did { RanAndWoke (D.meaning device.old) script.now result (D.meaning device.new) }
    ensures kept { D.lender device.new ≡ D.lender device.old }
{
    let cut = run(device, script).is_err();
    device.wake();
    cut
}

// What a sector reads as, by its first byte.
fn see<D: Device>(device: &mut D, sector: usize) -> Seen
    ensures did { SawSector (D.meaning device.old) sector result (D.meaning device.new) }
    ensures kept { D.lender device.new ≡ D.lender device.old }
{
    match read_whole(device, sector) {
        Ok(Some(bytes)) => Seen::Byte(bytes[0]),
        Ok(None) => Seen::Torn,
        Err(_) => Seen::Unread,
    }
}

/// Runs the operations in order until one is cut, wakes the device and reads its first two sectors.
pub fn observe<D: Device>(device: &mut D, script: &[Operation]) -> Outcome
    ensures did { Observed (D.meaning device.old) script.now result (D.meaning device.new) }
    ensures kept { D.lender device.new ≡ D.lender device.old }
{
    let cut = run_and_wake(device, script);
    let first = see(device, 0);
    let second = see(device, 1);
    Outcome { cut, first, second }
}
