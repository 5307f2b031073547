//! What a drill counts.
use crate::bench::Seen;

/// The table at its end.
#[derive(Clone, Copy, Default)]
pub(crate) struct Table {
    pub(crate) runs: u64,
    pub(crate) cuts: u64,
    pub(crate) plans: u64,
    pub(crate) second_cuts: u64,
    pub(crate) second_plans: u64,
    pub(crate) pairs: u64,
    pub(crate) pair_plans: u64,
    pub(crate) openings: u64,
    pub(crate) added: u64,
    pub(crate) lost: u64,
    pub(crate) faults: u64,
    pub(crate) slowest: u64,
}

/// One more.
pub(crate) fn count(counter: &mut u64) {
    *counter = counter.saturating_add(1);
}

fn add(counter: &mut u64, more: usize) {
    *counter = counter.saturating_add(more as u64);
}

impl Table {
    /// Counts a run that was not cut in its set-up.
    pub(crate) fn note(&mut self, seen: Seen) {
        add(&mut self.openings, seen.openings);
        add(&mut self.added, seen.pages.added);
        add(&mut self.lost, seen.pages.lost);
        if !seen.sound {
            count(&mut self.faults);
        }
    }
}
