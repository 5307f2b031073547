//! Why words are no pile.
ghost use Rattle.std.specs.Prelude.{◌≡◌, Some};
ghost use Rattle.pile_words.specs.Faults.{fault_text};
ghost use Rattle.pile_words.specs.declared.fault.PileFault.TheVariants.{NoMemory, Number};

use std::alloc::{AllocError, AllocFailed};
use std::fmt;
use words::NoNumber;

#[derive(Clone, Copy, Debug)]
pub enum PileFault {
    /// The words end before what is named here.
    Missing(&'static str),
    /// The word for what is named here is no number that fits.
    Number(&'static str),
    /// The word names no device.
    NoDevice,
    /// The devices are nested deeper than a pile goes.
    TooDeep,
    /// A drive cannot have so many sectors.
    TooLarge,
    /// The word is no list of fuses.
    NoCuts,
    /// Words follow the pile.
    LeftOver,
    NoMemory,
}

impl fmt::Display for PileFault {
    ghost output = { λ f. Some (fault_text f) };

    fn fmt<W: fmt::Write>(&self, f: &mut fmt::Formatter<W>) -> fmt::Result {
        match *self {
            PileFault::Missing(what) => write!(f, "{what} is missing"),
            PileFault::Number(what) => write!(f, "{what} is not a number that fits"),
            PileFault::NoDevice => write!(f, "a device is direct, writeback, offset or mirror"),
            PileFault::TooDeep => write!(
                f,
                "a pile is an offset over a mirror of offsets over drives, where each offset and the mirror may be left out"
            ),
            PileFault::TooLarge => write!(f, "a drive has at most 65536 sectors"),
            PileFault::NoCuts => write!(f, "cuts are written COUNT:PLAN, with commas between them"),
            PileFault::LeftOver => write!(f, "words are left over after the pile"),
            PileFault::NoMemory => write!(f, "there is no memory left"),
        }
    }
}

impl From<NoNumber> for PileFault {
    ghost from_gives = { λ n f. f ≡ Number n.0 };

    fn from(fault: NoNumber) -> PileFault {
        PileFault::Number(fault.0)
    }
}

impl From<AllocError> for PileFault {
    ghost from_gives = { λ _ f. f ≡ NoMemory };

    fn from(_e: AllocError) -> PileFault {
        PileFault::NoMemory
    }
}

impl<T: Drop> From<AllocFailed<T>> for PileFault {
    ghost from_gives = { λ _ f. f ≡ NoMemory };

    fn from(_e: AllocFailed<T>) -> PileFault {
        PileFault::NoMemory
    }
}
