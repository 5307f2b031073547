//! The market's calls.
ghost use Rattle.std.specs.Prelude.{◌≡◌, ◌<◌, ◌≤◌, true, length, take, IfOk, refl};
ghost use Rattle.market.specs.Resting.{Resting, nothing, stepped};
ghost use Rattle.market.specs.Steps.{Applied};
ghost use Rattle.body.specs.Layout.{body as resting_body};
ghost use Rattle.body.specs.Loads.{loads as body_loads};
ghost use Rattle.market.proofs.StepLaws as laws;
ghost use Rattle.body.proofs.Loading as bodies;
ghost use Rattle.ruled_market.specs.Means.{market_state};

use crate::rules::Rules;
use crate::shape::RestingMarket;
use body::reading::read_body;
use body::writing::write_body;
use market::interface::Market;
use market::orders::Order;
use market::resting::RestingOrders;
use records::commands::Command;
use records::notices::Notice;
use records::numbers::{CommandNumber, LAST_NUMBER};
use records::refusals::Refusal;
use std::alloc::{AllocError, Global};
use std::marker::PhantomData;

impl<R: Rules> RestingMarket<R> {
    /// The buys that rest, in rank order.
    pub fn buys(&self) -> &[Order]
        ensures { result.now ≡ (market_state self.now).buys }
    {
        self.resting.buys.as_slice()
    }

    /// The sells that rest, in rank order.
    pub fn sells(&self) -> &[Order]
        ensures { result.now ≡ (market_state self.now).sells }
    {
        self.resting.sells.as_slice()
    }
}

impl<R: Rules> Market for RestingMarket<R> {
    const CODE: u16 = R::CODE;

    ghost CODE = { R.CODE };

    ghost State = { Resting };

    ghost valid = { λ h. R.sound h ≡ true };

    ghost means = { market_state };

    ghost start = { nothing };

    ghost count = { λ h. h.last };

    ghost step = { stepped R.acted };

    ghost body = { resting_body };

    ghost loads = { body_loads R.sound };

    ghost starts = { (R.starts, refl) };

    ghost sound = { λ m. m.ok };

    ghost bounded = { λ h v. laws.bounded h (R.orders h v) };

    ghost keeps = { laws.stepped_keeps R.acted R.sound R.keeps R.passes };

    ghost few = { laws.stepped_few R.acted R.sound R.few };

    ghost counts = { laws.stepped_counts R.acted R.counts };

    ghost uncounts = { laws.stepped_uncounts R.acted R.uncounts };

    ghost sized = { λ h v. bodies.sized h (R.orders h v) };

    ghost plain = { λ h v. bodies.body_bytes h };

    ghost back = { bodies.loads_back R.sound R.orders };

    ghost only = { bodies.loads_only R.sound R.orders };

    fn new(heap: Global) -> Result<Self, AllocError> {
        Ok(RestingMarket {
            resting: RestingOrders::with_room(heap)?,
            rules: PhantomData,
        })
    }

    fn fresh(&mut self) {
        self.resting.clear();
    }

    fn last(&self) -> CommandNumber {
        self.resting.last
    }

    // The list is lent: nothing allocates on the way of a call.
    fn apply(&mut self, command: &Command, list: &mut [Notice]) -> Result<usize, Refusal>
        ensures step { Applied (market_state self.old) (stepped R.acted (market_state self.old) command.now) list.old (market_state self.new) list.new result }
        ensures fair { IfOk result (λ n. R.Fair (market_state self.old) command.now (market_state self.new) (take n list.new)) }
    {
        if list.len() < 64 {
            return Err(Refusal::ShortList);
        }
        if self.resting.last.0 >= LAST_NUMBER {
            return Ok(0);
        }
        if !command.is_good() {
            self.resting.pass();
            return Ok(0);
        }
        Ok(R::act(&mut self.resting, command, list))
    }

    fn save(&self, out: &mut [u8; 1536]) {
        write_body(self.resting.last, self.buys(), self.sells(), out);
    }

    fn load(&mut self, from: &[u8; 1536]) -> Result<(), Refusal> {
        let image = read_body(from).ok_or(Refusal::BadBody)?;
        if !R::may_load(&image) {
            return Err(Refusal::BadBody);
        }
        image.restore(&mut self.resting);
        Ok(())
    }
}
