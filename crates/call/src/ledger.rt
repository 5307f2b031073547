//! What the call auction does at each command.
ghost use Rattle.std.specs.Prelude.{◌≡◌, ◌<◌, ◌≤◌, true, length};
ghost use Rattle.records.specs.Commands.{in_range};
ghost use Rattle.market.specs.Resting.{sound, arriving};
ghost use Rattle.market.specs.Steps.{Taken};
ghost use Rattle.market.specs.Means.{state_of, HasRoom};
ghost use Rattle.call.specs.Fairness.{Fair};
ghost use Rattle.call.specs.Steps.{entered, crossed, acted, Valid};
ghost use Rattle.call.specs.Laws as laws;

use crate::clearing::Sides;
use crate::pairing::pair_all;
use crate::shape::Crossing;
use body::image::Image;
use market::resting::RestingOrders;
use records::commands::{Command, Side};
use records::notices::Notice;
use records::numbers::{Lots, Member, Price};
use ruled_market::rules::Rules;

// An order enters, and rests. Member, side, price and lots are the fields of the command, in its order. (No one
// text with the other market, where it trades first: what they share is `arrive` and `settle`.)
// The list is lent: nothing allocates on the way of a call.
fn enter(
    resting: &mut RestingOrders,
    member: Member,
    side: Side,
    price: Price,
    lots: Lots,
    list: &mut [Notice],
) -> usize
    requires room { HasRoom resting.old }
    requires more { (state_of resting.old).last < 1000000000000 }
    requires long { 64 ≤ length list.old }
    ensures taken { Taken (entered (state_of resting.old) side (arriving (state_of resting.old) member price lots)) list.old (state_of resting.new) list.new result }
    ensures room { HasRoom resting.new }
{
    let order = resting.arrive(member, price, lots);
    // Which side it rests on is chosen here; `settle` is one text for both.
    match side {
        Side::Buy => resting.buys.settle(side, order, list),
        Side::Sell => resting.sells.settle(side, order, list),
    }
}

// The sides cross.
// The list is lent: nothing allocates on the way of a call.
fn cross(resting: &mut RestingOrders, list: &mut [Notice]) -> usize
    requires valid { Valid (state_of resting.old) }
    requires room { HasRoom resting.old }
    requires more { (state_of resting.old).last < 1000000000000 }
    requires long { 64 ≤ length list.old }
    ensures taken { Taken (crossed (state_of resting.old)) list.old (state_of resting.new) list.new result }
    ensures room { HasRoom resting.new }
{
    let sides = Sides {
        buys: resting.buys.as_slice(),
        sells: resting.sells.as_slice(),
    };
    let clearing = sides.clearing();
    resting.pass();
    if clearing.lots.0 == 0 {
        return 0;
    }
    pair_all(resting, clearing, list)
}

impl Rules for Crossing {
    const CODE: u16 = 2;

    ghost CODE = { 2 };

    ghost sound = { sound };

    ghost acted = { acted };

    ghost Fair = { Fair };

    ghost starts = { laws.fresh_valid };

    ghost orders = { λ h v. v };

    ghost keeps = { laws.acted_valid };

    ghost passes = { laws.passes };

    ghost few = { laws.acted_few };

    ghost counts = { laws.acted_counts };

    ghost uncounts = { laws.acted_uncounted };

    ghost passes_fair = { laws.passes_fair };

    ghost stays_fair = { laws.stays_fair };

    // The list is lent: nothing allocates on the way of a call.
    fn act(resting: &mut RestingOrders, command: &Command, list: &mut [Notice]) -> usize {
        match *command {
            Command::Enter {
                member,
                side,
                price,
                lots,
            } => enter(resting, member, side, price, lots, list),
            Command::Cancel { member, order } => resting.cancel(member, order, list),
            Command::Cross => cross(resting, list),
        }
    }

    fn may_load(image: &Image) -> bool {
        image.is_sound()
    }
}
