//! The drill: every cut, every plan.
ghost use Rattle.std.specs.Prelude.{◌≡◌};
ghost use Rattle.drills.specs.Cuts.{has_cuts};

use crate::bench::{Bench, Ending, Seen};
use crate::cuts::{Aim, Cut, Half};
use crate::faults::DrillFault;
use crate::lines::{print_cut, print_fault, print_head, print_set_up, print_table};
use crate::table::{Table, count};
use book::shape::Continuous;
use call::shape::Crossing;
use drill_parts::plans::PlanSet;
use image::{Fuse, Plan};
use jobs::faults::JobFault;
use pile_words::pile_of;
use piles::{PileShape, WholeShape};
use play_words::script::{MarketKind, Script};
use plays::reading::script_in;
use ruled_market::rules::Rules;
use std::alloc::AllocError;

/// The plan that is tried first at each cut: it drops every write.
pub(crate) const DROPS: Plan = Plan { bits: 0 };

/// What a drill is asked for.
#[derive(Clone, Copy)]
pub struct Options<'w> {
    /// The script's file.
    pub script: &'w str,
    /// How many plans are tried at one cut.
    pub plans: u32,
    /// The words of the pile that takes the place of the script's.
    pub pile: Option<&'w [&'w str]>,
}

/// A drill that goes on.
#[derive(Drop)]
pub(crate) struct Drill<'r> {
    pub(crate) rt: &'r HostRuntime,
    pub(crate) bench: Bench,
    pub(crate) most: u32,
    pub(crate) table: Table,
}

impl Drill<'_> {
    /// A run that is counted, and told of where it broke a promise. None where its set-up was cut.
    pub(crate) fn run<R: Rules>(&mut self, aim: Aim, plan: Plan) -> Result<Option<Seen>, JobFault> {
        count(&mut self.table.runs);
        match self.bench.run::<R>(aim, plan)? {
            Ending::Refused(_) => Ok(None),
            Ending::Ran(seen) => {
                self.table.note(seen);
                if !seen.sound {
                    print_fault(self.rt, self.bench.pile())?;
                }
                Ok(Some(seen))
            }
        }
    }

    // The cuts of one opening: the half is cut again at each of its calls, until the exchange is live.
    fn cut_opening<R: Rules>(&mut self, half: Half, first: Fuse) -> Result<(), JobFault> {
        for left in 0..u32::MAX {
            let aim = Aim::Again { half, first, left };
            if !self.cut_again::<R>(aim)? {
                self.table.slowest = self.table.slowest.max(left as u64);
                break;
            }
        }
        Ok(())
    }

    // A second cut, by every plan. False where the opening was over before it.
    fn cut_again<R: Rules>(&mut self, aim: Aim) -> Result<bool, JobFault> {
        let Some(seen) = self.run::<R>(aim, DROPS)? else {
            return Ok(false);
        };
        let Some(call) = seen.second else {
            return Ok(false);
        };
        let plans = PlanSet::new(self.bench.waiting::<R>(aim, call)?, self.most);
        count(&mut self.table.second_cuts);
        count(&mut self.table.second_plans);
        for place in 1..plans.count() {
            count(&mut self.table.second_plans);
            let _ = self.run::<R>(aim, plans.plan(place))?;
        }
        Ok(true)
    }

    // A cut in a call of the script, by every plan, and the opening after each.
    fn cut_call<R: Rules>(&mut self, half: Half, left: u32, call: usize) -> Result<Cut, JobFault> {
        let before = self.table.runs;
        let aim = Aim::Once { half, left };
        let writes = self.bench.waiting::<R>(aim, call)?;
        let plans = PlanSet::new(writes, self.most);
        for place in 0..plans.count() {
            let plan = plans.plan(place);
            count(&mut self.table.plans);
            if place > 0 {
                let _ = self.run::<R>(aim, plan)?;
            }
            self.cut_opening::<R>(half, Fuse { left, plan })?;
        }
        let cut = Cut { left, call, writes };
        let runs = self.table.runs.saturating_sub(before).saturating_add(1);
        print_cut(self.rt, half, cut, plans.count(), runs)?;
        Ok(cut)
    }

    // Cuts one half at each of its calls, until the script is over.
    fn cut_half<R: Rules>(&mut self, half: Half) -> Result<Vec<Cut>, JobFault> {
        let mut cuts = Vec::new(self.rt.alloc());
        for left in 0..u32::MAX {
            let Some(seen) = self.run::<R>(Aim::Once { half, left }, DROPS)? else {
                count(&mut self.table.cuts);
                print_set_up(self.rt, half, left)?;
                continue;
            };
            match seen.first {
                Some(call) if self.bench.owns(call) => {
                    count(&mut self.table.cuts);
                    let cut = self.cut_call::<R>(half, left, call)?;
                    cuts.push(cut).map_err(AllocError::from)?;
                }
                _ => break,
            }
        }
        Ok(cuts)
    }

    fn cut_all<R: Rules>(&mut self) -> Result<(), JobFault> {
        let firsts = self.cut_half::<R>(Half::First)?;
        if self.bench.is_mirror() {
            let seconds = self.cut_half::<R>(Half::Second)?;
            self.cut_pairs::<R>(Half::First, &firsts, &seconds)?;
            self.cut_pairs::<R>(Half::Second, &seconds, &firsts)?;
        }
        Ok(())
    }
}

// Whether a pile has cuts of its own.
fn has_cuts(pile: &PileShape) -> bool
    ensures { result ≡ has_cuts pile.now.whole }
{
    match &pile.whole {
        WholeShape::Part(part) => !part.drive.fuses().is_empty(),
        WholeShape::Mirror(a, b) => !a.drive.fuses().is_empty() || !b.drive.fuses().is_empty(),
    }
}

// The script, over the pile that is asked for.
fn script_of(rt: &HostRuntime, options: Options) -> Result<Script, DrillFault> {
    let mut script = script_in(rt, options.script)?;
    if let Some(words) = options.pile {
        script.pile = pile_of(rt.alloc(), words)?;
    }
    if has_cuts(&script.pile) {
        return Err(DrillFault::Cuts);
    }
    Ok(script)
}

// The whole drill in one market; whether no promise was broken.
fn drill_in<R: Rules>(rt: &HostRuntime, script: Script, most: u32) -> Result<bool, DrillFault> {
    let mut drill = Drill {
        rt,
        bench: Bench::new(rt.alloc(), script)?,
        most,
        table: Table::default(),
    };
    if let Ending::Refused(fault) = drill.bench.run::<R>(Aim::Nowhere, DROPS)? {
        return Err(DrillFault::SetUp(fault));
    }
    drill.cut_all::<R>()?;
    print_table(rt, &drill.table)?;
    Ok(drill.table.faults == 0)
}

/// Drills a script, and prints what came of it: whether no promise was broken.
pub fn drill_script(rt: &HostRuntime, options: Options) -> Result<bool, DrillFault> {
    let script = script_of(rt, options)?;
    print_head(rt, options.script, &script, options.plans)?;
    match script.market {
        MarketKind::Book => drill_in::<Continuous>(rt, script, options.plans),
        MarketKind::Call => drill_in::<Crossing>(rt, script, options.plans),
    }
}
