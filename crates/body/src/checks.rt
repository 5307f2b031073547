//! What is asked of the orders of a state.
ghost use Rattle.std.specs.Prelude.{◌≡◌, Bool};
ghost use Rattle.market.specs.Lists.{all, pairwise, across};
ghost use Rattle.market.specs.Orders.{before, differ, below, kept};
ghost use Rattle.market.specs.Resting.{side_sound, sound};
ghost use Rattle.market.specs.declared.orders.Order.{Order};

use market::orders::Order;
use market::tables::MOST_ORDERS;
use rank::Ranking;
use records::commands::Side;
use records::numbers::{CommandNumber, LAST_NUMBER};

// What two orders may have to do with each other. A trait, so that one text asks it of each pair. (A relation is of two: a
// struct of them would only be taken apart.)
trait Relation {
    ghost related: { Self → Order → Order → Bool };

    fn relates(&self, x: &Order, y: &Order) -> bool
        ensures { result ≡ related self.now x.now y.now };
}

// The first stands before the second, on this side.
impl Relation for Side {
    ghost related = { before };

    fn relates(&self, x: &Order, y: &Order) -> bool {
        self.stands_before(x, y)
    }
}

// They have not one number.
#[derive(Drop)]
struct Distinct;

impl Relation for Distinct {
    ghost related = { λ _ x y. differ x y };

    fn relates(&self, x: &Order, y: &Order) -> bool {
        x.number != y.number
    }
}

// The first, a buy, is below the second in price.
#[derive(Drop)]
struct Apart;

impl Relation for Apart {
    ghost related = { λ _ x y. below x y };

    fn relates(&self, buy: &Order, sell: &Order) -> bool {
        buy.price < sell.price
    }
}

// Whether an order has this to do with each of the others.
fn relates_to_all<R: Relation>(relation: &R, x: &Order, ys: &[Order]) -> bool
    ensures { result ≡ all (R.related relation.now x.now) ys.now }
{
    ys.iter().all(|y| relation.relates(x, y))
}

// Whether each order has this to do with each that follows it. (`is_sorted_by` asks it of neighbours alone, and of three
// orders the first and the last may still have one number.)
fn is_pairwise<R: Relation>(relation: &R, xs: &[Order]) -> bool
    ensures { result ≡ pairwise (R.related relation.now) xs.now }
{
    let mut left = xs;
    while let [x, rest @ ..] = left {
        if !relates_to_all(relation, x, rest) {
            return false;
        }
        left = rest;
    }
    true
}

// Whether each buy has this to do with each sell. (Both sides go together here and below: they are
// lent from an image, a market or a state, and a struct of the two loans would be made anew for each.)
fn is_across<R: Relation>(relation: &R, buys: &[Order], sells: &[Order]) -> bool
    ensures { result ≡ across (R.related relation.now) buys.now sells.now }
{
    buys.iter().all(|buy| relates_to_all(relation, buy, sells))
}

// Whether every buy is below every sell in price.
pub(crate) fn are_apart(buys: &[Order], sells: &[Order]) -> bool
    ensures { result ≡ across below buys.now sells.now }
{
    is_across(&Apart, buys, sells)
}

// Whether an order keeps the ranges that it entered with, under one of the first numbers.
fn is_kept(last: CommandNumber, x: &Order) -> bool
    ensures { result ≡ kept last.0 x.now }
{
    x.member.is_good()
        && x.price.is_good()
        && x.lots.is_good()
        && (1..=last.0).contains(&x.number.0)
}

fn all_kept(last: CommandNumber, xs: &[Order]) -> bool
    ensures { result ≡ all (kept last.0) xs.now }
{
    xs.iter().all(|x| is_kept(last, x))
}

fn side_is_sound(side: Side, last: CommandNumber, xs: &[Order]) -> bool
    ensures { result ≡ side_sound side last.0 xs.now }
{
    xs.len() <= MOST_ORDERS
        && is_pairwise(&side, xs)
        && is_pairwise(&Distinct, xs)
        && all_kept(last, xs)
}

// Whether a state is one that a market can be in.
pub(crate) fn is_sound_state(last: CommandNumber, buys: &[Order], sells: &[Order]) -> bool
    ensures { result ≡ sound (record { last = last.0; buys = buys.now; sells = sells.now }) }
{
    last.0 <= LAST_NUMBER
        && side_is_sound(Side::Buy, last, buys)
        && side_is_sound(Side::Sell, last, sells)
        && is_across(&Distinct, buys, sells)
}
