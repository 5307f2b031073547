//! Bodies of snapshots, loaded.
ghost use Rattle.std.specs.Prelude.{◌≡◌, ◌≤◌};
ghost use Rattle.protocol.specs.Worlds.{rules_of};
ghost use Rattle.journal_io.specs.Opening.{Takes, Opens};
ghost use Rattle.journal_io.specs.Readings.{BodyRead, Took, TakenBy};
ghost use Rattle.protocol.specs.Steps.{wake_ops};
ghost use Rattle.journal_io.specs.Running.{Running};

use crate::reading::choose_header;
use crate::writing::perform_all;
use device::Device;
use device::run::Operation;
use journal::choosing::SlotHeader;
use journal::slots::Slot;
use market::interface::Market;
use protocol::faults::JournalFault;
use records::numbers::{CommandNumber, HouseNumber};

// The body of a slot; a torn sector of it is the device's fault. (`i` is which sector; a copy, since a part of the body lent as
// an array would be a Result that is never an error.)
fn read_body<D: Device>(device: &mut D, slot: Slot) -> Result<[u8; 1536], JournalFault>
    requires { 9 ≤ (D.meaning device.old).size }
    ensures did { BodyRead (D.meaning device.old) slot result (D.meaning device.new) }
    ensures kept { D.lender device.new ≡ D.lender device.old }
{
    let at = slot.body_sector();
    let mut body = [0; 1536];
    for i in 0..3 {
        let mut part = [0; 512];
        device.read(at + i, &mut part)?;
        body[512 * i..512 * i + 512].copy_from_slice(&part);
    }
    Ok(body)
}

// The market takes a body of so many commands, which began at this sector.
fn take_body<M: Market>(
    market: &mut M,
    body: &[u8; 1536],
    at: usize,
    commands: CommandNumber,
) -> Result<(), JournalFault>
    ensures { TakenBy (rules_of M.Market) at commands.0 body.now result (M.means market.new) }
{
    market.load(body).map_err(|_| JournalFault::Refused(at))?;
    if market.last() != commands {
        return Err(JournalFault::OtherLast(at));
    }
    Ok(())
}

/// Loads the body of the chosen header into the market, and sees that it is of the header's last command.
pub fn load_body<M: Market, D: Device>(
    device: &mut D,
    market: &mut M,
    chosen: &SlotHeader,
) -> Result<(), JournalFault>
    requires { 9 ≤ (D.meaning device.old).size }
    ensures did { (house : HouseNumber) → Took (record { house = house; size = (D.meaning device.old).size; rules = rules_of M.Market }) (D.meaning device.old) chosen.now result (D.meaning device.new) (M.means market.new) }
    ensures kept { D.lender device.new ≡ D.lender device.old }
{
    let body = read_body(device, chosen.slot)?;
    take_body(
        market,
        &body,
        chosen.slot.body_sector(),
        chosen.header.commands,
    )
}

// Wakes the device, and syncs it.
fn wake_up<D: Device>(device: &mut D) -> Result<(), JournalFault>
    ensures did { Running (D.meaning device.old) wake_ops result (D.meaning device.new) }
    ensures kept { D.lender device.new ≡ D.lender device.old }
{
    perform_all(device, &[Operation::Wake, Operation::Sync])
}

// The first in rank of the good headers, and its body in the market.
fn take_first<M: Market, D: Device>(
    device: &mut D,
    market: &mut M,
    house: HouseNumber,
) -> Result<SlotHeader, JournalFault>
    requires { 9 ≤ (D.meaning device.old).size }
    ensures did { Takes (record { house = house; size = (D.meaning device.old).size; rules = rules_of M.Market }) (D.meaning device.old) result (D.meaning device.new) (M.means market.new) }
    ensures kept { D.lender device.new ≡ D.lender device.old }
{
    let first = choose_header::<M, D>(device, house)?;
    load_body(device, market, &first)?;
    Ok(first)
}

/// Wakes the device, syncs it, and loads the snapshot that stands first in rank.
pub fn open_snapshot<M: Market, D: Device>(
    device: &mut D,
    market: &mut M,
    house: HouseNumber,
) -> Result<SlotHeader, JournalFault>
    requires { 9 ≤ (D.meaning device.old).size }
    ensures did { Opens (record { house = house; size = (D.meaning device.old).size; rules = rules_of M.Market }) (D.meaning device.old) result (D.meaning device.new) (M.means market.new) }
    ensures kept { D.lender device.new ≡ D.lender device.old }
{
    wake_up(device)?;
    take_first(device, market, house)
}
