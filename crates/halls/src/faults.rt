//! Why a job on a file ends early.
ghost use Rattle.std.specs.Prelude.{◌≡◌};
ghost use Rattle.halls.specs.declared.faults.HallFault.TheVariants.{Io, NoMemory, SetUp};

use plays::lines::RefusalWords;
use protocol::faults::ExchangeFault;
use std::alloc::AllocError;
use std::{fmt, io};

/// Why a job on a file ended early.
#[derive(Drop)]
pub enum HallFault {
    /// There is no file of this name.
    NoFile(String),
    /// There is no folder for the file of this name.
    NoFolder(String),
    /// There is a file of this name already.
    Taken(String),
    /// What has this name is a folder or a device, say.
    NotPlain(String),
    /// The file of this name cannot be used.
    File { name: String, error: io::Error },
    /// Both names of a mirror are those of one file.
    OneFile,
    /// The length of the file of this name is no image's.
    NoImage(String),
    /// An exchange cannot lie on so many sectors.
    Sectors,
    /// The exchange cannot be set up.
    SetUp(ExchangeFault),
    NoMemory,
    Io(io::Error),
}

impl fmt::Display for HallFault {
    fn fmt<W: fmt::Write>(&self, f: &mut fmt::Formatter<W>) -> fmt::Result {
        match self {
            HallFault::NoFile(name) => write!(f, "there is no file {name}"),
            HallFault::NoFolder(name) => write!(f, "there is no folder for the file {name}"),
            HallFault::Taken(name) => write!(
                f,
                "there is a file {name} already: --force overwrites it"
            ),
            HallFault::NotPlain(name) => write!(f, "{name} is not a plain file"),
            HallFault::File { name, error } => {
                write!(f, "the file {name} cannot be used: {error}")
            }
            HallFault::OneFile => write!(f, "a mirror needs two files, and both names are of one"),
            HallFault::NoImage(name) => write!(
                f,
                "{name} is no image: one has 9 to 4096 sectors of 512 bytes"
            ),
            HallFault::Sectors => write!(f, "a device has 9 to 4096 sectors"),
            HallFault::SetUp(why) => {
                let why = RefusalWords(*why);
                write!(f, "the exchange cannot be set up: {why}")
            }
            HallFault::NoMemory => write!(f, "there is not enough memory"),
            HallFault::Io(e) => write!(f, "{e}"),
        }
    }
}

impl From<ExchangeFault> for HallFault {
    ghost from_gives = { λ e f. f ≡ SetUp e };

    fn from(fault: ExchangeFault) -> HallFault {
        HallFault::SetUp(fault)
    }
}

impl From<io::Error> for HallFault {
    ghost from_gives = { λ e f. f ≡ Io e };

    fn from(e: io::Error) -> HallFault {
        HallFault::Io(e)
    }
}

impl From<AllocError> for HallFault {
    ghost from_gives = { λ _ f. f ≡ NoMemory };

    fn from(_e: AllocError) -> HallFault {
        HallFault::NoMemory
    }
}
