//! The price that a cross takes.
ghost use Rattle.std.specs.Prelude.{◌≡◌, ◌^◌, ◌<◌, sum_by};
ghost use Rattle.call.specs.Clearing.{lots_at, at_price, preferred, better, best, clearing, Summable};

use market::orders::Order;
use records::commands::Side;
use records::numbers::{Lots, Price};
use std::cmp::Reverse;

/// A price, and the lots that a cross at it would match.
#[derive(Clone, Copy)]
pub(crate) struct Clearing {
    pub(crate) price: Price,
    pub(crate) lots: Lots,
}

/// The orders of both sides. The lots of each side can be summed.
#[derive(Clone, Copy)]
pub(crate) struct Sides<'a> {
    pub(crate) buys: &'a [Order],
    pub(crate) sells: &'a [Order],
    ghost few: { Summable buys.now sells.now },
}

// The lots of an order, where it accepts a price. (Side and price are what is asked of each row; a struct of both would only be
// taken apart.)
fn lots_at_price(side: Side, price: Price, row: &Order) -> u32
    ensures { result ≡ lots_at side price.0 row.now }
{
    if row.accepts(side, price) {
        row.lots.0
    } else {
        0
    }
}

// The lots of a side's orders that accept a price.
fn lots_offered(side: Side, price: Price, rows: &[Order]) -> u32
    requires { sum_by (lots_at side price.0) rows.now < 2 ^ 32 }
    ensures { result ≡ sum_by (lots_at side price.0) rows.now }
{
    rows.iter().map(|row| lots_at_price(side, price, row)).sum()
}

// Whether the first is taken rather than the second.
fn is_preferred(a: &Clearing, b: &Clearing) -> bool
    ensures { result ≡ preferred a.now b.now }
{
    (Reverse(a.lots), a.price) < (Reverse(b.lots), b.price)
}

impl Sides<'_> {
    // What a cross at this price would match.
    fn at_price(&self, price: Price) -> Clearing
        ensures { result ≡ at_price self.now.buys.now self.now.sells.now price }
    {
        let bought = lots_offered(Side::Buy, price, self.buys);
        let sold = lots_offered(Side::Sell, price, self.sells);
        Clearing {
            price,
            lots: Lots(bought.min(sold)),
        }
    }

    // The best of what is taken so far and the price of an order.
    fn better(&self, best: Clearing, row: &Order) -> Clearing
        ensures { result ≡ better self.now.buys.now self.now.sells.now best row.now }
    {
        let candidate = self.at_price(row.price);
        if is_preferred(&candidate, &best) {
            candidate
        } else {
            best
        }
    }

    // The best of what is taken so far and the prices of some of the orders.
    fn best_of(&self, start: Clearing, rows: &[Order]) -> Clearing
        ensures { result ≡ best self.now.buys.now self.now.sells.now start rows.now }
    {
        rows.iter().fold(start, |best, row| self.better(best, row))
    }

    /// The resting price with the most matched lots, the lowest of several; 0 lots where none matches.
    pub(crate) fn clearing(&self) -> Clearing
        ensures { result ≡ clearing self.now.buys.now self.now.sells.now }
    {
        let none = Clearing {
            price: Price(0),
            lots: Lots(0),
        };
        self.best_of(self.best_of(none, self.buys), self.sells)
    }
}
