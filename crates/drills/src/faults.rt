//! Why a drill ends early.
ghost use Rattle.std.specs.Prelude.{◌≡◌};
ghost use Rattle.drills.specs.declared.faults.DrillFault.TheVariants.{Pile, Stopped};
ghost use Rattle.jobs.specs.declared.faults.JobFault.TheVariants.{Io, NoMemory};

use jobs::faults::JobFault;
use pile_words::PileFault;
use plays::lines::RefusalWords;
use protocol::faults::ExchangeFault;
use std::alloc::AllocError;
use std::{fmt, io};

/// Why a drill ended early.
#[derive(Drop)]
pub enum DrillFault {
    /// The words after `--pile` are no pile.
    Pile(PileFault),
    /// The device has cuts of its own.
    Cuts,
    /// The exchange cannot be set up, though nothing is cut.
    SetUp(ExchangeFault),
    Stopped(JobFault),
}

impl fmt::Display for DrillFault {
    fn fmt<W: fmt::Write>(&self, f: &mut fmt::Formatter<W>) -> fmt::Result {
        match self {
            DrillFault::Pile(why) => write!(f, "the pile: {why}"),
            DrillFault::Cuts => write!(
                f,
                "a drill makes the cuts itself: leave them out of the device"
            ),
            DrillFault::SetUp(why) => {
                let why = RefusalWords(*why);
                write!(f, "the exchange cannot be set up: {why}")
            }
            DrillFault::Stopped(why) => write!(f, "{why}"),
        }
    }
}

impl From<JobFault> for DrillFault {
    ghost from_gives = { λ e f. f ≡ Stopped e };

    fn from(fault: JobFault) -> DrillFault {
        DrillFault::Stopped(fault)
    }
}

impl From<PileFault> for DrillFault {
    ghost from_gives = { λ e f. f ≡ Pile e };

    fn from(fault: PileFault) -> DrillFault {
        DrillFault::Pile(fault)
    }
}

impl From<io::Error> for DrillFault {
    ghost from_gives = { λ e f. f ≡ Stopped (Io e) };

    fn from(e: io::Error) -> DrillFault {
        DrillFault::Stopped(JobFault::Io(e))
    }
}

impl From<AllocError> for DrillFault {
    ghost from_gives = { λ _ f. f ≡ Stopped NoMemory };

    fn from(_e: AllocError) -> DrillFault {
        DrillFault::Stopped(JobFault::NoMemory)
    }
}
