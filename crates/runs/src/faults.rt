//! Why a run ends early.
ghost use Rattle.std.specs.Prelude.{◌≡◌};
ghost use Rattle.runs.specs.declared.faults.RunFault.TheVariants.{Exchange, Hall, Io, NoMemory};

use halls::faults::HallFault;
use halls::markets::{MarketWord, market_of};
use halls::owners::Owner;
use plays::lines::RefusalWords;
use protocol::faults::ExchangeFault;
use std::alloc::AllocError;
use std::{fmt, io};

/// Why a run ended early.
#[derive(Drop)]
pub enum RunFault {
    /// The file cannot be opened, or is no image.
    Hall(HallFault),
    /// Another run works on the file of this name.
    InUse(String),
    /// The file of this name holds another's exchange alone.
    Other(String, Owner),
    /// No file holds an exchange.
    NoExchange,
    /// The files of a mirror are not of one size.
    Sizes,
    /// A call of the exchange was refused, or cut.
    Exchange(ExchangeFault),
    NoMemory,
    Io(io::Error),
}

// Whose exchange it is.
fn fmt_owner<W: fmt::Write>(owner: Owner, f: &mut fmt::Formatter<W>) -> fmt::Result {
    let (house, code) = (owner.house.0, owner.code);
    match market_of(code) {
        Some(kind) => write!(f, "house {house}, market {}", MarketWord(kind)),
        None => write!(f, "house {house}, and of a market that is not known"),
    }
}

impl fmt::Display for RunFault {
    fn fmt<W: fmt::Write>(&self, f: &mut fmt::Formatter<W>) -> fmt::Result {
        match self {
            RunFault::Hall(fault) => write!(f, "{fault}"),
            RunFault::InUse(name) => write!(f, "another run works on {name}"),
            RunFault::Other(name, owner) => {
                write!(f, "{name} holds the exchange of ")?;
                fmt_owner(*owner, f)
            }
            RunFault::NoExchange => write!(f, "no exchange is set up there"),
            RunFault::Sizes => write!(f, "the two files of a mirror have one size"),
            RunFault::Exchange(fault) => {
                let why = RefusalWords(*fault);
                write!(f, "the exchange stopped: {why}")
            }
            RunFault::NoMemory => write!(f, "there is not enough memory"),
            RunFault::Io(e) => write!(f, "{e}"),
        }
    }
}

impl From<HallFault> for RunFault {
    ghost from_gives = { λ e f. f ≡ Hall e };

    fn from(fault: HallFault) -> RunFault {
        RunFault::Hall(fault)
    }
}

impl From<ExchangeFault> for RunFault {
    ghost from_gives = { λ e f. f ≡ Exchange e };

    fn from(fault: ExchangeFault) -> RunFault {
        RunFault::Exchange(fault)
    }
}

impl From<io::Error> for RunFault {
    ghost from_gives = { λ e f. f ≡ Io e };

    fn from(e: io::Error) -> RunFault {
        RunFault::Io(e)
    }
}

impl From<AllocError> for RunFault {
    ghost from_gives = { λ _ f. f ≡ NoMemory };

    fn from(_e: AllocError) -> RunFault {
        RunFault::NoMemory
    }
}
