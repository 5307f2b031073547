//! How a page in the journal stands to an opening.
ghost use Rattle.halls.specs.Stands.{StandsSo};

use crate::courses::Course;
use journal::layouts::Layout;
use records::numbers::HouseNumber;
use records::pages::PageHead;
use std::fmt;

/// What an opening makes of a page.
#[derive(Clone, Copy)]
pub(crate) enum Stand {
    /// The page is another house's.
    Foreign,
    /// The snapshot covers it.
    Covered,
    /// It is replayed.
    Replayed,
    /// It is not next in turn, or the opening ends before it.
    Left,
}

impl fmt::Display for Stand {
    fn fmt<W: fmt::Write>(&self, f: &mut fmt::Formatter<W>) -> fmt::Result {
        match self {
            Stand::Foreign => write!(f, "of another house"),
            Stand::Covered => write!(f, "covered"),
            Stand::Replayed => write!(f, "replayed"),
            Stand::Left => write!(f, "not replayed"),
        }
    }
}

/// How the page with this head, in this sector, stands to an opening of the house.
pub(crate) fn stand_of(
    course: &Course,
    house: HouseNumber,
    layout: &Layout,
    sector: usize,
    head: &PageHead,
) -> Stand
    ensures { StandsSo house course.now layout.now.size sector head.now result }
{
    if head.house != house {
        Stand::Foreign
    } else if head.number <= course.covered {
        Stand::Covered
    } else if head.number <= course.last && layout.page_sector(head.number) == sector {
        Stand::Replayed
    } else {
        Stand::Left
    }
}
