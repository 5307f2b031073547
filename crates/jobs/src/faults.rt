//! Why a job ends early.
ghost use Rattle.std.specs.Prelude.{◌≡◌};
ghost use Rattle.jobs.specs.declared.faults.JobFault.TheVariants.{Io, NoMemory};

use play_words::faults::ScriptFault;
use std::alloc::AllocError;
use std::{fmt, io};

/// Why a job ended early.
#[derive(Drop)]
pub enum JobFault {
    NoMemory,
    /// The number of sectors is not 9 to 4,096.
    Sectors,
    /// No command number is left.
    NumbersSpent,
    /// The file of this name cannot be opened.
    File { name: String, error: io::Error },
    /// A line of a script cannot be read.
    Script(ScriptFault),
    Io(io::Error),
}

impl fmt::Display for JobFault {
    fn fmt<W: fmt::Write>(&self, f: &mut fmt::Formatter<W>) -> fmt::Result {
        match self {
            JobFault::NoMemory => write!(f, "there is not enough memory"),
            JobFault::Sectors => write!(f, "a device has 9 to 4096 sectors"),
            JobFault::NumbersSpent => write!(f, "no command number is left"),
            JobFault::File { name, error } => write!(f, "{name} cannot be opened: {error}"),
            JobFault::Script(fault) => write!(f, "{fault}"),
            JobFault::Io(e) => write!(f, "{e}"),
        }
    }
}

impl From<io::Error> for JobFault {
    ghost from_gives = { λ e f. f ≡ Io e };

    fn from(e: io::Error) -> JobFault {
        JobFault::Io(e)
    }
}

impl From<AllocError> for JobFault {
    ghost from_gives = { λ _ f. f ≡ NoMemory };

    fn from(_e: AllocError) -> JobFault {
        JobFault::NoMemory
    }
}
