//! Which pages of a journal an opening replays.
ghost use Rattle.std.specs.Prelude.{◌≡◌, Some, Decides};
ghost use Rattle.halls.specs.Courses.{EndsAt};

use device::Device;
use exchange::state::Exchange;
use image::sectors::MOST_SECTORS;
use market::interface::Market;
use play_words::calls::ROOM;
use protocol::faults::{ExchangeFault, Origin};
use records::notices::Notice;
use records::numbers::PageNumber;
use std::alloc::{AllocError, Global};

/// The pages that an opening replays, those above the covered one up to the last, and what ends it if not the last of them.
#[derive(Clone, Copy)]
pub(crate) struct Course {
    pub(crate) covered: PageNumber,
    pub(crate) last: PageNumber,
    pub(crate) fault: Option<ExchangeFault>,
}

impl Course {
    /// An opening that is refused at once.
    pub(crate) fn refused(fault: ExchangeFault) -> Course
        ensures { (result.fault ≡ Some fault) × (result.last ≡ result.covered) }
    {
        Course {
            covered: PageNumber(0),
            last: PageNumber(0),
            fault: Some(fault),
        }
    }

    /// Whether the opening is refused for what this sector of the journal holds.
    pub(crate) fn ends_at(&self, sector: usize) -> bool
        ensures { Decides result (EndsAt self.now sector) }
    {
        self.fault
            .is_some_and(|fault| fault.origin == Origin::Exchange(sector))
    }
}

/// Replays until no page is next, or one is refused.
pub(crate) fn replay_all<M: Market, D: Device>(
    heap: Global,
    exchange: &mut Exchange<M, D>,
    covered: PageNumber,
) -> Result<Course, AllocError> {
    let mut list = vec![in heap; Notice::default(); ROOM]?;
    let mut course = Course {
        covered,
        last: covered,
        fault: None,
    };
    for _ in 0..MOST_SECTORS {
        match exchange.replay(list.as_mut_slice()) {
            Ok(Some(receipt)) => {
                course.last = receipt.numbers().page;
                exchange.shelve(receipt);
            }
            Ok(None) => break,
            Err(fault) => {
                course.fault = Some(fault);
                break;
            }
        }
    }
    Ok(course)
}
