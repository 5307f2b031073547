//! Which plans are tried for the writes that wait.
ghost use Rattle.std.specs.Prelude.{◌≡◌, ◌^◌, ◌<◌, ◌≤◌, max, min};
ghost use Rattle.drill_parts.specs.Plans.{fates, how_many, number_at};

use image::Plan;

/// A cut tries plans for at most so many writes: 8 wait in a drive, and one may be in course.
pub const MOST_WRITES: u32 = 9;

/// The plans for the writes that wait: each is dropped, kept or torn. Where these are more than the most, so many of them,
/// evenly.
#[derive(Clone, Copy)]
pub struct PlanSet {
    writes: u32,
    count: u32,
    ghost few: { writes ≤ 9 },
    ghost some: { 1 ≤ count },
}

// The bits of a number's plan, by its base-3 digits.
#[tactic(auto, using(crate::proofs::Powers::four_small))]
fn fates_of(writes: u32, number: u64) -> u32
    requires { writes ≤ 9 }
    ensures exact { result ≡ fates writes number }
    ensures below { result < 4 ^ writes }
{
    if writes == 0 {
        return 0;
    }
    (number % 3) as u32 + 4 * fates_of(writes - 1, number / 3)
}

impl PlanSet {
    /// For so many writes, of which 9 count. One plan is tried at least.
    #[tactic(auto, using(crate::proofs::Powers::three_small, crate::proofs::Powers::three_some))]
    pub fn new(writes: u32, most: u32) -> PlanSet
        ensures writes { result.writes ≡ min writes 9 }
        ensures count { result.count ≡ how_many (min writes 9) (max most 1) }
    {
        let writes = writes.min(MOST_WRITES);
        let all = 3u32.pow(writes);
        PlanSet {
            writes,
            count: all.min(most.max(1)),
        }
    }

    /// How many plans are tried.
    pub fn count(self) -> u32
        ensures { result ≡ self.count }
    {
        self.count
    }

    /// The plan of this place, from 0 on. The first drops every write.
    #[tactic(auto, using(crate::proofs::Powers::three_small, crate::proofs::Powers::three_some))]
    pub fn plan(self, place: u32) -> Plan
        ensures { result.bits ≡ fates self.writes (number_at self.writes self.count place) }
    {
        let all = 3u64.pow(self.writes);
        let number = place as u64 * all / self.count as u64;
        Plan {
            bits: fates_of(self.writes, number),
        }
    }
}
