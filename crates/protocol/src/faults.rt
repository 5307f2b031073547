//! Why a call of an exchange is refused, and where that comes from.
use device::DeviceFault;
use records::refusals::Refusal;

pub mod told;

/// Who told of a fault, and of which sector.
#[derive(Clone, Copy, PartialEq, Eq, Debug)]
pub enum Origin {
    /// The call was not allowed, or there was no header to tell of: nothing more is carried.
    Plain,
    /// Layer 1, the device: its own fault, with the sector that was asked.
    Device(DeviceFault),
    /// Layer 2, the market, of the body that begins at this sector.
    Market(usize),
    /// Layer 3, the exchange itself, of what it read from this sector on.
    Exchange(usize),
}

/// The first reason that fits, and where it comes from.
#[derive(Clone, Copy, PartialEq, Eq, Debug)]
pub struct ExchangeFault {
    pub reason: Refusal,
    pub origin: Origin,
}

/// What the journal meets on its device.
#[derive(Clone, Copy, PartialEq, Eq, Debug)]
pub enum JournalFault {
    /// The device's own fault: a cut, or a torn sector of a body.
    Device(DeviceFault),
    /// No good header can be read.
    NoHeader,
    /// The market does not take the body that begins at this sector.
    Refused(usize),
    /// The body that begins at this sector is of another command than its header.
    OtherLast(usize),
    /// The page looked for, in this sector, is not good or not the next one.
    BadPage(usize),
}
