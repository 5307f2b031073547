//! One run after another, over the same memory.
use crate::cuts::{Aim, Half};
use audit::audit_log;
use device::Device;
use drill_parts::logs::{PageCounts, count_openings, count_pages, next_cut, next_live};
use drill_parts::plans::MOST_WRITES;
use drill_parts::tail::push_tail;
use exchange::state::Exchange;
use image::{Fuse, Plan};
use piles::{PileShape, WholeShape, build};
use play_words::script::Script;
use protocol::faults::ExchangeFault;
use records::numbers::HouseNumber;
use ruled_market::rules::Rules;
use ruled_market::shape::RestingMarket;
use runner::log::Entry;
use runner::running::{RunFault, run_script};
use runner::script::Call;
use std::alloc::{AllocError, Global};
use std::mem;

/// What a run showed.
#[derive(Clone, Copy)]
pub(crate) struct Seen {
    /// Whether the promises hold of its log.
    pub(crate) sound: bool,
    pub(crate) openings: usize,
    pub(crate) pages: PageCounts,
    /// The call in which the power was cut first.
    pub(crate) first: Option<usize>,
    /// The next such call, where it came before an opening reached live.
    pub(crate) second: Option<usize>,
}

impl Seen {
    fn of(log: &[Entry], sound: bool) -> Seen {
        let first = next_cut(log, 0);
        let second = first.and_then(|call| second_cut(log, call.saturating_add(1)));
        Seen {
            sound,
            openings: count_openings(log),
            pages: count_pages(log),
            first,
            second,
        }
    }
}

// The cut that comes before the exchange is live again.
fn second_cut(log: &[Entry], from: usize) -> Option<usize> {
    let cut = next_cut(log, from)?;
    match next_live(log, from) {
        Some(live) if live < cut => None,
        _ => Some(cut),
    }
}

/// How a run ended.
#[derive(Clone, Copy)]
pub(crate) enum Ending {
    /// The exchange could not be set up.
    Refused(ExchangeFault),
    Ran(Seen),
}

/// The bytes that the drives of a pile stand on.
#[derive(Drop)]
struct Images {
    first: Vec<u8>,
    second: Vec<u8>,
}

impl Images {
    fn new(heap: Global, pile: &PileShape) -> Result<Images, AllocError> {
        Ok(Images {
            first: Vec::from_elem(heap, 0, pile.first_bytes())?,
            second: Vec::from_elem(heap, 0, pile.second_bytes())?,
        })
    }

    fn clear(&mut self) {
        self.first.fill(0);
        self.second.fill(0);
    }

    fn equal(&self, other: &Images) -> bool {
        self.first.as_slice() == other.first.as_slice()
            && self.second.as_slice() == other.second.as_slice()
    }
}

// Runs all calls on a device, and checks the promises.
fn run_audited<R: Rules, D: Device + Drop>(
    heap: Global,
    house: HouseNumber,
    device: D,
    calls: &[Call],
) -> Result<Ending, AllocError> {
    let mut exchange: Exchange<RestingMarket<R>, D> = Exchange::new(heap, house, device)?;
    match run_script(heap, &mut exchange, calls) {
        Ok(run) => {
            let sound = audit_log(heap, &exchange, &run.log)?;
            Ok(Ending::Ran(Seen::of(&run.log, sound)))
        }
        Err(RunFault::Refused(fault)) => Ok(Ending::Refused(fault)),
        Err(RunFault::NoMemory) => Err(AllocError),
    }
}

// Runs calls on a device for what they leave on it.
fn run_only<R: Rules, D: Device + Drop>(
    heap: Global,
    house: HouseNumber,
    device: D,
    calls: &[Call],
) -> Result<(), AllocError> {
    let mut exchange: Exchange<RestingMarket<R>, D> = Exchange::new(heap, house, device)?;
    match run_script(heap, &mut exchange, calls) {
        Ok(_) | Err(RunFault::Refused(_)) => Ok(()),
        Err(RunFault::NoMemory) => Err(AllocError),
    }
}

/// What the runs of a drill share: the calls, of which the first are the script's own, and the pile with its memory.
#[derive(Drop)]
pub(crate) struct Bench {
    heap: Global,
    house: HouseNumber,
    pile: PileShape,
    calls: Vec<Call>,
    own: usize,
    images: Images,
    spare: Images,
}

impl Bench {
    pub(crate) fn new(heap: Global, script: Script) -> Result<Bench, AllocError> {
        let Script {
            house,
            pile,
            mut calls,
            ..
        } = script;
        let own = calls.len();
        push_tail(heap, &mut calls)?;
        Ok(Bench {
            heap,
            house,
            images: Images::new(heap, &pile)?,
            spare: Images::new(heap, &pile)?,
            pile,
            calls,
            own,
        })
    }

    pub(crate) fn pile(&self) -> &PileShape {
        &self.pile
    }

    pub(crate) fn is_mirror(&self) -> bool {
        matches!(self.pile.whole, WholeShape::Mirror(..))
    }

    /// Whether the call is one of the script's own.
    pub(crate) fn owns(&self, call: usize) -> bool {
        call < self.own
    }

    // Puts fuses on a half, and on the other one. A pile of one drive has one half.
    fn put(&mut self, half: Half, own: &[Fuse], other: &[Fuse]) -> Result<(), AllocError> {
        match (&mut self.pile.whole, half) {
            (WholeShape::Part(part), _) => part.drive.put_fuses(own),
            (WholeShape::Mirror(a, b), Half::First) => {
                a.drive.put_fuses(own)?;
                b.drive.put_fuses(other)
            }
            (WholeShape::Mirror(a, b), Half::Second) => {
                b.drive.put_fuses(own)?;
                a.drive.put_fuses(other)
            }
        }
    }

    fn put_aim(&mut self, aim: Aim, plan: Plan) -> Result<(), AllocError> {
        match aim {
            Aim::Nowhere => self.put(Half::First, &[], &[]),
            Aim::Once { half, left } => self.put(half, &[Fuse { left, plan }], &[]),
            Aim::Again { half, first, left } => self.put(half, &[first, Fuse { left, plan }], &[]),
            Aim::Both { half, left, other } => {
                let other = Fuse { left: other, plan };
                self.put(half, &[Fuse { left, plan }], &[other])
            }
        }
    }

    /// Runs the script and its tail, cut by this plan.
    pub(crate) fn run<R: Rules>(&mut self, aim: Aim, plan: Plan) -> Result<Ending, AllocError> {
        self.put_aim(aim, plan)?;
        self.images.clear();
        let (first, second) = (&mut self.images.first, &mut self.images.second);
        let pile = build(self.heap, &self.pile, first, second)?;
        run_audited::<R, _>(self.heap, self.house, pile, &self.calls)
    }

    // Runs the calls up to this one, for what they leave in the images.
    fn leave<R: Rules>(&mut self, aim: Aim, plan: Plan, call: usize) -> Result<(), AllocError> {
        self.put_aim(aim, plan)?;
        self.images.clear();
        let (first, second) = (&mut self.images.first, &mut self.images.second);
        let pile = build(self.heap, &self.pile, first, second)?;
        let end = self.calls.len().min(call.saturating_add(1));
        run_only::<R, _>(self.heap, self.house, pile, &self.calls[..end])
    }

    /// How many writes wait at a cut, which comes in this call. It is found by trying: a write that waits leaves another image
    /// where it is torn than where it is kept.
    pub(crate) fn waiting<R: Rules>(&mut self, aim: Aim, call: usize) -> Result<u32, AllocError> {
        for write in 0..MOST_WRITES {
            let torn = Plan {
                bits: 2 << (2 * write),
            };
            let kept = Plan {
                bits: 3 << (2 * write),
            };
            self.leave::<R>(aim, torn, call)?;
            mem::swap(&mut self.images, &mut self.spare);
            self.leave::<R>(aim, kept, call)?;
            if self.images.equal(&self.spare) {
                return Ok(write);
            }
        }
        Ok(MOST_WRITES)
    }
}
