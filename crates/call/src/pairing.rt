//! The two sides pair, in rank order, at one price.
ghost use Rattle.std.specs.Prelude.{◌≡◌, ◌+◌, ◌<◌, ◌≤◌, length, vec_capacity};
ghost use Rattle.market.specs.Means.{rows};
ghost use Rattle.call.specs.Crossing.{pair, Fillable, Paired, PairedAll};

use crate::clearing::Clearing;
use market::notes::fill_notice;
use market::orders::Order;
use market::resting::RestingOrders;
use records::notices::Notice;
use records::numbers::{CommandNumber, Lots, Price};

// The fill of a buy and a sell, of the lots that are left to fill.
fn pair_of(command: CommandNumber, price: Price, left: Lots, buy: &Order, sell: &Order) -> Notice
    ensures { result ≡ pair command price left.0 buy.now sell.now }
{
    let lots = Lots(left.0.min(buy.lots.0.min(sell.lots.0)));
    fill_notice(command, buy, sell, price, lots)
}

// One pair of the two orders in front.
fn pair_first(resting: &mut RestingOrders, price: Price, left: Lots) -> Notice
    requires some { 0 < left.0 }
    requires fillable { Fillable price.0 left.0 (rows resting.old.buys) (rows resting.old.sells) }
    ensures paired { Paired resting.old.last price left.0 (rows resting.old.buys) (rows resting.old.sells) (rows resting.new.buys) (rows resting.new.sells) result }
    ensures last { resting.new.last ≡ resting.old.last }
    ensures buys_capacity { vec_capacity resting.new.buys.rows ≡ vec_capacity resting.old.buys.rows }
    ensures sells_capacity { vec_capacity resting.new.sells.rows ≡ vec_capacity resting.old.sells.rows }
{
    let buy = resting.buys.as_slice()[0];
    let sell = resting.sells.as_slice()[0];
    let notice = pair_of(resting.last, price, left, &buy, &sell);
    resting.buys.reduce(notice.lots);
    resting.sells.reduce(notice.lots);
    notice
}

// The sides pair until all lots are filled; the fills go over the front of the list, and the answer counts them.
// The list is lent: nothing allocates on the way of a call.
pub(crate) fn pair_all(
    resting: &mut RestingOrders,
    clearing: Clearing,
    list: &mut [Notice],
) -> usize
    requires fillable { Fillable clearing.price.0 clearing.lots.0 (rows resting.old.buys) (rows resting.old.sells) }
    requires room { length (rows resting.old.buys) + length (rows resting.old.sells) ≤ length list.old }
    ensures paired { PairedAll resting.old.last clearing.price clearing.lots.0 (rows resting.old.buys) (rows resting.old.sells) list.old (rows resting.new.buys) (rows resting.new.sells) list.new result }
    ensures last { resting.new.last ≡ resting.old.last }
    ensures buys_capacity { vec_capacity resting.new.buys.rows ≡ vec_capacity resting.old.buys.rows }
    ensures sells_capacity { vec_capacity resting.new.sells.rows ≡ vec_capacity resting.old.sells.rows }
{
    let mut left = clearing.lots.0;
    let mut n = 0;
    while left > 0 {
        let notice = pair_first(resting, clearing.price, Lots(left));
        left -= notice.lots.0;
        list[n] = notice;
        n += 1;
    }
    n
}
