//! What is wrong with the arguments, or what stopped the job.
ghost use Rattle.std.specs.Prelude.{◌≡◌};
ghost use Rattle.cli.specs.declared.faults.Fault.TheVariants.{Drill, Hall, Run};
ghost use Rattle.cli.specs.declared.faults.WordFault.TheVariants as word;

use crate::helps::Command;
use drills::faults::DrillFault;
use halls::faults::HallFault;
use jobs::faults::JobFault;
use runs::faults::RunFault;
use std::alloc::AllocError;
use std::{fmt, io};
use words::NoNumber;

/// What is wrong with the words after the program's name.
#[derive(Drop)]
pub enum WordFault {
    /// There are none.
    NoJob,
    /// The word is none that may stand there.
    Unknown(String),
    /// What is named here is missing.
    Missing(&'static str),
    /// No word follows this option.
    NoValue(String),
    /// The option is there twice.
    Twice(String),
    /// The word for what is named here is no number that fits.
    NoNumber(&'static str),
    /// A drill of no plans.
    NoPlans,
    NoMemory,
}

/// What is wrong with the arguments, or what stopped the job.
#[derive(Drop)]
pub enum Fault {
    /// The words are wrong, those of this command where one was named.
    Words(WordFault, Option<Command>),
    Stopped(JobFault),
    Drill(DrillFault),
    Hall(HallFault),
    Run(RunFault),
    /// A drill broke a promise.
    Broken,
}

impl fmt::Display for WordFault {
    fn fmt<W: fmt::Write>(&self, f: &mut fmt::Formatter<W>) -> fmt::Result {
        match self {
            WordFault::NoJob => write!(f, "say what to do"),
            WordFault::Unknown(word) => write!(f, "{word} is not known here"),
            WordFault::Missing(what) => write!(f, "{what} is missing"),
            WordFault::NoValue(option) => write!(f, "{option} needs a word after it"),
            WordFault::Twice(option) => write!(f, "{option} is there twice"),
            WordFault::NoNumber(option) => write!(f, "{option} needs a number"),
            WordFault::NoPlans => write!(f, "at least one plan is tried at each cut"),
            WordFault::NoMemory => write!(f, "there is not enough memory"),
        }
    }
}

impl fmt::Display for Fault {
    fn fmt<W: fmt::Write>(&self, f: &mut fmt::Formatter<W>) -> fmt::Result {
        match self {
            Fault::Words(why, None) => write!(f, "{why}\nhammerbuff --help tells more"),
            Fault::Words(why, Some(command)) => {
                let name = command.name();
                write!(f, "{why}\nhammerbuff {name} --help tells more")
            }
            Fault::Stopped(fault) => write!(f, "{fault}"),
            Fault::Drill(fault) => write!(f, "{fault}"),
            Fault::Hall(fault) => write!(f, "{fault}"),
            Fault::Run(fault) => write!(f, "{fault}"),
            Fault::Broken => write!(f, "a promise was broken"),
        }
    }
}

impl From<NoNumber> for WordFault {
    ghost from_gives = { λ n f. f ≡ word.NoNumber n.0 };

    fn from(fault: NoNumber) -> WordFault {
        WordFault::NoNumber(fault.0)
    }
}

impl From<AllocError> for WordFault {
    ghost from_gives = { λ _ f. f ≡ word.NoMemory };

    fn from(_e: AllocError) -> WordFault {
        WordFault::NoMemory
    }
}

impl From<JobFault> for Fault {
    fn from(fault: JobFault) -> Fault {
        Fault::Stopped(fault)
    }
}

impl From<DrillFault> for Fault {
    ghost from_gives = { λ e f. f ≡ Drill e };

    fn from(fault: DrillFault) -> Fault {
        Fault::Drill(fault)
    }
}

impl From<HallFault> for Fault {
    ghost from_gives = { λ e f. f ≡ Hall e };

    fn from(fault: HallFault) -> Fault {
        Fault::Hall(fault)
    }
}

impl From<RunFault> for Fault {
    ghost from_gives = { λ e f. f ≡ Run e };

    fn from(fault: RunFault) -> Fault {
        Fault::Run(fault)
    }
}

impl From<io::Error> for Fault {
    fn from(e: io::Error) -> Fault {
        Fault::Stopped(JobFault::Io(e))
    }
}

impl From<AllocError> for Fault {
    fn from(_e: AllocError) -> Fault {
        Fault::Stopped(JobFault::NoMemory)
    }
}
