ghost use Rattle.std.specs.Prelude.{◌≡◌};
ghost use Rattle.journal.specs.Places.{journal, page_place, InJournal, PagesApart};
ghost use Rattle.journal.specs.Layouts.{LaidOut};

use super::Layout;
use records::numbers::PageNumber;

impl Layout {
    /// The layout of a device with so many sectors, unless they are too few or too many.
    pub fn new(size: usize) -> Option<Layout>
        ensures { LaidOut size result }
    {
        if (9..=4096).contains(&size) {
            Some(Layout { size })
        } else {
            None
        }
    }

    /// How many sectors the journal has, which is how many pages may lie in it.
    pub fn journal(&self) -> usize
        ensures { result ≡ journal self.now.size }
    {
        self.size - 8
    }

    /// The sector of a page. Page 0, which is none, is given that of page 1.
    pub fn page_sector(&self, page: PageNumber) -> usize
        ensures place { result ≡ page_place self.now.size page.0 }
        ensures inside { InJournal self.now.size result }
        ensures apart { PagesApart self.now.size }
    {
        let around = page.0.saturating_sub(1) % self.journal() as u64;
        8 + around as usize
    }
}
