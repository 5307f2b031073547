ghost use Rattle.std.specs.Prelude.{◌≡◌};
ghost use Rattle.protocol.specs.Faults.{own_fault_of, sector_of, layer_of, from_device, of_journal, plain};

use super::{ExchangeFault, JournalFault, Origin};
use device::DeviceFault;
use records::refusals::Refusal;

// These are the numbers that are printed of an origin, 0 where it carries none: as options they would be unwrapped at once.
impl Origin {
    /// The device's own fault, 0 where none is carried.
    pub fn own_fault(self) -> u8
        ensures { result ≡ own_fault_of self }
    {
        match self {
            Origin::Device(fault) => fault.number(),
            _ => 0,
        }
    }

    /// The sector, 0 where none is carried.
    pub fn sector(self) -> usize
        ensures { result ≡ sector_of self }
    {
        match self {
            Origin::Plain => 0,
            Origin::Device(fault) => fault.sector(),
            Origin::Market(sector) | Origin::Exchange(sector) => sector,
        }
    }

    /// The layer: 1 the device, 2 the market, 3 the exchange, 0 where none is carried.
    pub fn layer(self) -> u8
        ensures { result ≡ layer_of self }
    {
        match self {
            Origin::Plain => 0,
            Origin::Device(_) => 1,
            Origin::Market(_) => 2,
            Origin::Exchange(_) => 3,
        }
    }
}

impl From<DeviceFault> for JournalFault {
    ghost from_gives = { λ f r. r ≡ from_device f };

    fn from(fault: DeviceFault) -> JournalFault {
        JournalFault::Device(fault)
    }
}

impl From<JournalFault> for ExchangeFault {
    ghost from_gives = { λ f r. r ≡ of_journal f };

    fn from(fault: JournalFault) -> ExchangeFault {
        let (reason, origin) = match fault {
            JournalFault::Device(fault) => match fault {
                DeviceFault::OutOfRange(_) => (Refusal::PastTheEnd, Origin::Device(fault)),
                DeviceFault::Cut(_) => (Refusal::PowerCut, Origin::Device(fault)),
                DeviceFault::Torn(_) => (Refusal::BadBody, Origin::Device(fault)),
            },
            JournalFault::NoHeader => (Refusal::NoHeader, Origin::Plain),
            JournalFault::Refused(sector) => (Refusal::BadBody, Origin::Market(sector)),
            JournalFault::OtherLast(sector) => (Refusal::BadBody, Origin::Exchange(sector)),
            JournalFault::BadPage(sector) => (Refusal::BadPage, Origin::Exchange(sector)),
        };
        ExchangeFault { reason, origin }
    }
}

impl From<Refusal> for ExchangeFault {
    ghost from_gives = { λ f r. r ≡ plain f };

    fn from(reason: Refusal) -> ExchangeFault {
        ExchangeFault {
            reason,
            origin: Origin::Plain,
        }
    }
}
