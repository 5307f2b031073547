//! Both halves of a mirror cut, at different moments.
//!
//! The half that is cut first has its turn at each of its cuts; the other one is cut at each of its calls from that call of
//! the script on, until the exchange is live again. A cut of the other half that comes before that is a pair of the other
//! order, and one that comes later finds a mirror whose opening is over.
use crate::cuts::{Aim, Cut, Half};
use crate::drilling::{DROPS, Drill};
use crate::lines::print_pairs;
use crate::table::count;
use drill_parts::plans::PlanSet;
use jobs::faults::JobFault;
use ruled_market::rules::Rules;

// Where the other half is cut first, and where its cuts in the same call of the script end.
#[derive(Clone, Copy)]
struct Range {
    from: u32,
    past: u32,
}

// The first cut in this call of the script or a later one; behind them all where there is none.
fn left_from(cuts: &[Cut], call: usize) -> u32 {
    match cuts.iter().find(|cut| cut.call >= call) {
        Some(cut) => cut.left,
        None => cuts.last().map_or(0, |cut| cut.left.saturating_add(1)),
    }
}

// The other half's cuts, from those in this call of the script on. In the second order the pairs of one call are done.
fn range_of(half: Half, cut: Cut, others: &[Cut]) -> Range {
    let past = left_from(others, cut.call.saturating_add(1));
    let from = match half {
        Half::First => left_from(others, cut.call),
        Half::Second => past,
    };
    Range { from, past }
}

impl Drill<'_> {
    // Both halves are cut, by every plan. False where the opening after the first cut was over before the second one.
    fn cut_both<R: Rules>(&mut self, aim: Aim, cut: Cut, same: bool) -> Result<bool, JobFault> {
        let Some(seen) = self.run::<R>(aim, DROPS)? else {
            return Ok(false);
        };
        let Some(call) = seen.second.or(seen.first.filter(|_| same)) else {
            return Ok(false);
        };
        let writes = self.bench.waiting::<R>(aim, call)?.max(cut.writes);
        let plans = PlanSet::new(writes, self.most);
        count(&mut self.table.pairs);
        count(&mut self.table.pair_plans);
        for place in 1..plans.count() {
            count(&mut self.table.pair_plans);
            let _ = self.run::<R>(aim, plans.plan(place))?;
        }
        Ok(true)
    }

    // All pairs with one cut.
    fn cut_other<R: Rules>(
        &mut self,
        half: Half,
        cut: Cut,
        others: &[Cut],
    ) -> Result<(), JobFault> {
        let (runs, pairs) = (self.table.runs, self.table.pairs);
        let range = range_of(half, cut, others);
        for other in range.from..u32::MAX {
            let left = cut.left;
            let aim = Aim::Both { half, left, other };
            if !self.cut_both::<R>(aim, cut, other < range.past)? {
                break;
            }
        }
        let runs = self.table.runs.saturating_sub(runs);
        let pairs = self.table.pairs.saturating_sub(pairs);
        Ok(print_pairs(self.rt, half, cut, pairs, runs)?)
    }

    /// All pairs in which this half is cut first.
    pub(crate) fn cut_pairs<R: Rules>(
        &mut self,
        half: Half,
        cuts: &[Cut],
        others: &[Cut],
    ) -> Result<(), JobFault> {
        for cut in cuts {
            self.cut_other::<R>(half, *cut, others)?;
        }
        Ok(())
    }
}
