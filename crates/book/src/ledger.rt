//! What the book does at each command.
ghost use Rattle.std.specs.Prelude.{◌≡◌, ◌<◌, ◌≤◌, true, length};
ghost use Rattle.records.specs.Commands.{in_range};
ghost use Rattle.market.specs.Resting.{arriving};
ghost use Rattle.market.specs.Steps.{Taken};
ghost use Rattle.market.specs.Means.{state_of, HasRoom};
ghost use Rattle.book.specs.Fairness.{Fair};
ghost use Rattle.book.specs.Steps.{entered, book_sound, acted, Valid};
ghost use Rattle.book.specs.Laws as laws;

use crate::matching::trade;
use crate::shape::Continuous;
use body::image::Image;
use market::resting::RestingOrders;
use records::commands::{Command, Side};
use records::notices::Notice;
use records::numbers::{Lots, Member, Price};
use ruled_market::rules::Rules;

// An order enters, and trades. Member, side, price and lots are the fields of the command, in its order. (No one
// text with the other market, where it rests at once: what they share is `arrive` and `settle`.)
// The list is lent: nothing allocates on the way of a call.
fn enter(
    resting: &mut RestingOrders,
    member: Member,
    side: Side,
    price: Price,
    lots: Lots,
    list: &mut [Notice],
) -> usize
    requires valid { Valid (state_of resting.old) }
    requires room { HasRoom resting.old }
    requires more { (state_of resting.old).last < 1000000000000 }
    requires ranged { in_range member price lots ≡ true }
    requires long { 64 ≤ length list.old }
    ensures taken { Taken (entered (state_of resting.old) side (arriving (state_of resting.old) member price lots)) list.old (state_of resting.new) list.new result }
    ensures room { HasRoom resting.new }
{
    let order = resting.arrive(member, price, lots);
    // Which side meets which is chosen here; `trade` is one text for both.
    match side {
        Side::Buy => trade(side, order, &mut resting.buys, &mut resting.sells, list),
        Side::Sell => trade(side, order, &mut resting.sells, &mut resting.buys, list),
    }
}

impl Rules for Continuous {
    const CODE: u16 = 1;

    ghost CODE = { 1 };

    ghost sound = { book_sound };

    ghost acted = { acted };

    ghost Fair = { Fair };

    ghost starts = { laws.fresh_valid };

    ghost orders = { laws.orders };

    ghost keeps = { laws.acted_valid };

    ghost passes = { laws.passes };

    ghost few = { laws.acted_few };

    ghost counts = { laws.acted_counts };

    ghost uncounts = { laws.acted_uncounted };

    ghost passes_fair = { laws.passes_fair };

    ghost stays_fair = { laws.stays_fair };

    // The list is lent: nothing allocates on the way of a call.
    fn act(resting: &mut RestingOrders, command: &Command, list: &mut [Notice]) -> usize {
        match *command {
            Command::Enter {
                member,
                side,
                price,
                lots,
            } => enter(resting, member, side, price, lots, list),
            Command::Cancel { member, order } => resting.cancel(member, order, list),
            Command::Cross => {
                resting.pass();
                0
            }
        }
    }

    fn may_load(image: &Image) -> bool {
        image.is_sound() && image.is_apart()
    }
}
