//! What is read: headers and pages.
ghost use Rattle.std.specs.Prelude.{◌≡◌, ◌<◌, ◌≤◌};
ghost use Rattle.journal_io.specs.Readings.{Fetched, HeaderRead, Chose};
ghost use Rattle.protocol.specs.Worlds.{rules_of};
ghost use Rattle.journal.specs.Slots.{header_place};

use device::{Device, Sector, read_whole};
use journal::choosing::{SlotHeader, first_header};
use journal::slots::Slot;
use market::interface::Market;
use protocol::faults::JournalFault;
use records::numbers::HouseNumber;

// The device is lent by the exchange, whose field it is. A struct of it and its layout would be made anew for each call, and
// name the device one step deeper in each clause: so calls that need its size ask for it. `kept` relates two moments, which
// no type can hold.
/// The bytes of a sector, or none where it is torn.
pub fn read_sector<D: Device>(device: &mut D, sector: usize) -> Result<Option<Sector>, JournalFault>
    requires { sector < (D.meaning device.old).size }
    ensures did { Fetched (D.meaning device.old) sector result (D.meaning device.new) }
    ensures kept { D.lender device.new ≡ D.lender device.old }
{
    Ok(read_whole(device, sector)?)
}

// The sector of a slot's header; zeros, which are no header, where it is torn.
fn read_header<D: Device>(device: &mut D, slot: Slot) -> Result<Sector, JournalFault>
    requires { 9 ≤ (D.meaning device.old).size }
    ensures did { HeaderRead (D.meaning device.old) (header_place slot) result (D.meaning device.new) }
    ensures kept { D.lender device.new ≡ D.lender device.old }
{
    Ok(read_sector(device, slot.header_sector())?.unwrap_or([0; 512]))
}

/// The first in rank of the good headers of this house and this market.
pub fn choose_header<M: Market, D: Device>(
    device: &mut D,
    house: HouseNumber,
) -> Result<SlotHeader, JournalFault>
    requires { 9 ≤ (D.meaning device.old).size }
    ensures did { Chose (record { house = house; size = (D.meaning device.old).size; rules = rules_of M.Market }) (D.meaning device.old) result (D.meaning device.new) }
    ensures kept { D.lender device.new ≡ D.lender device.old }
{
    let zero = read_header(device, Slot::Zero)?;
    let one = read_header(device, Slot::One)?;
    first_header::<M>(&zero, &one, house)
        .map(|chosen| chosen.first)
        .ok_or(JournalFault::NoHeader)
}
