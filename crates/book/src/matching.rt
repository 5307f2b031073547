//! An entering order meets the orders that rest on the other side.
ghost use Rattle.std.specs.Prelude.{◌≡◌, ◌≤◌, true, length, vec_len, vec_capacity, MatchOption};
ghost use Rattle.market.specs.Lists.{pairwise};
ghost use Rattle.market.specs.Orders.{before, other};
ghost use Rattle.market.specs.Means.{rows};
ghost use Rattle.book.specs.Matching.{trades, fill_with, traded, Filled, Stopped, MetAll, Traded};

use market::notes::fill_notice;
use market::orders::Order;
use market::tables::OrderTable;
use records::commands::Side;
use records::notices::Notice;
use records::numbers::Lots;

// What the side chooses here is a side, and below the order of two: each is in one place.
fn opposite_of(side: Side) -> Side
    ensures { result ≡ other side }
{
    match side {
        Side::Buy => Side::Sell,
        Side::Sell => Side::Buy,
    }
}

// Whether the entering order and a resting one trade.
fn can_trade(side: Side, taker: &Order, maker: &Order) -> bool
    ensures { result ≡ trades side taker.now maker.now }
{
    taker.lots.0 > 0 && taker.accepts(side, maker.price)
}

// The fill of the entering order with a resting one, at the resting price.
fn fill_between(side: Side, taker: &Order, maker: &Order, lots: Lots) -> Notice
    ensures { result ≡ fill_with side taker.now maker.now lots.0 }
{
    match side {
        Side::Buy => fill_notice(taker.number, taker, maker, maker.price, lots),
        Side::Sell => fill_notice(taker.number, maker, taker, maker.price, lots),
    }
}

// One fill of the entering order with the first in rank, if they trade. (Side, order, table and list are lent together through
// the steps of one command; a struct of them would be made anew for each step.)
// `first` asks for the rank order, which is no invariant of the table: the table does not know its side.
fn fill_first(side: Side, taker: &mut Order, opposite: &mut OrderTable) -> Option<Notice>
    requires { pairwise (before (other side)) (rows opposite.old) ≡ true }
    ensures cases { MatchOption result (Stopped side taker.old (rows opposite.old) taker.new (rows opposite.new))
        (Filled side taker.old (rows opposite.old) taker.new (rows opposite.new)) }
    ensures capacity { vec_capacity opposite.new.rows ≡ vec_capacity opposite.old.rows }
{
    let i = opposite.first(opposite_of(side))?;
    let maker = opposite.as_slice()[i];
    if !can_trade(side, taker, &maker) {
        return None;
    }
    let lots = Lots(taker.lots.0.min(maker.lots.0));
    let notice = fill_between(side, taker, &maker, lots);
    taker.lots = Lots(taker.lots.0 - lots.0);
    opposite.reduce(lots);
    Some(notice)
}

// The entering order meets the other side while they trade; the fills go over the front of the list, and the answer counts them.
// `fill_first` asks for the rank order, which the table, not knowing its side, cannot promise.
// The list is lent: nothing allocates on the way of a call.
fn meet(side: Side, taker: &mut Order, opposite: &mut OrderTable, list: &mut [Notice]) -> usize
    requires ranked { pairwise (before (other side)) (rows opposite.old) ≡ true }
    requires room { length (rows opposite.old) ≤ length list.old }
    ensures met { MetAll side taker.old (rows opposite.old) list.old taker.new (rows opposite.new) list.new result }
    ensures capacity { vec_capacity opposite.new.rows ≡ vec_capacity opposite.old.rows }
{
    let mut n = 0;
    while let Some(notice) = fill_first(side, taker, opposite) {
        list[n] = notice;
        n += 1;
    }
    n
}

// An order trades with the other side; what is left of it rests on its own, or is dropped.
// `meet` asks for the rank order, which the table, not knowing its side, cannot promise.
// The list is lent: nothing allocates on the way of a call.
pub(crate) fn trade(
    side: Side,
    order: Order,
    own: &mut OrderTable,
    opposite: &mut OrderTable,
    list: &mut [Notice],
) -> usize
    requires ranked { pairwise (before (other side)) (rows opposite.old) ≡ true }
    requires own_room { 32 ≤ vec_capacity own.old.rows }
    requires few { length (rows opposite.old) ≤ 32 }
    requires room { 64 ≤ length list.old }
    ensures traded { Traded (traded side order (rows own.old) (rows opposite.old)) list.old (rows own.new) (rows opposite.new) list.new result }
    ensures own_capacity { vec_capacity own.new.rows ≡ vec_capacity own.old.rows }
    ensures opposite_capacity { vec_capacity opposite.new.rows ≡ vec_capacity opposite.old.rows }
{
    let mut taker = order;
    let n = meet(side, &mut taker, opposite, list);
    if taker.lots.0 == 0 {
        return n;
    }
    n + own.settle(side, taker, &mut list[n..])
}
