ghost use Rattle.std.specs.Prelude.{◌≡◌, true};
ghost use Rattle.market.specs.Means.{state_of, HasRoom};

use crate::rules::Rules;
use market::resting::RestingOrders;
use std::marker::PhantomData;

/// A market that keeps resting orders, under rules.
#[derive(Drop)]
pub struct RestingMarket<R: Rules> {
    pub(crate) resting: RestingOrders,
    pub(crate) rules: PhantomData<R>,
    ghost ok: { R.sound (state_of resting) ≡ true },
    ghost room: { HasRoom resting },
}
