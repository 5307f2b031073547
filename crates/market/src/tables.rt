//! The orders that rest on one side.
ghost use Rattle.std.specs.Prelude.{◌≡◌, ℕ, ◌<◌, ◌≤◌, true, [], length, IfOk, vec_len, vec_capacity, slice_index_or};
ghost use Rattle.std.specs.Borrow.{sem, follows};
ghost use Rattle.std.specs.Vec.{with_item};
ghost use Rattle.std.specs.List.{position};
ghost use Rattle.std.specs.Option.{option_to_list};
ghost use Rattle.market.specs.contracts.orders.Order.{the_row as order_row};
ghost use Rattle.market.specs.contracts.tables.OrderTable.{the_row as table_row};
ghost use Rattle.market.specs.Lists.{pairwise, found, without, placed};
ghost use Rattle.market.specs.Orders.{before, is_of, rested, reduced, Has, front};
ghost use Rattle.market.specs.Means.{rows};
ghost use Rattle.market.specs.Steps.{Taken};

use crate::notes::lots_notice;
use crate::orders::Order;
use rank::{Ranking, first_in_rank};
use records::commands::Side;
use records::notices::{Kind, Notice};
use records::numbers::{CommandNumber, Lots, Member};
use std::alloc::{AllocError, Global};

/// How many orders may rest on a side.
pub const MOST_ORDERS: usize = 32;

/// The orders of a side, in memory for 32 that is reserved once. It has no invariant of its own: the
/// market that holds it keeps its rows in rank order, and so each call says that it keeps the memory.
#[derive(Drop)]
pub struct OrderTable {
    rows: Vec<Order>,
}

// Where the first stands that `x` stands before.
fn first_behind<R: Ranking<T>, T>(ranking: &R, xs: &[T], x: &T) -> Option<usize>
    ensures { result ≡ position (λ y. R.earlier ranking.now (R.key x.now) (R.key y)) xs.now }
{
    xs.iter().position(|y| ranking.stands_before(x, y))
}

impl OrderTable {
    /// No orders, and the memory for 32, no less and no more.
    pub fn with_room(heap: Global) -> Result<OrderTable, AllocError>
        ensures { IfOk result (λ t. (rows t ≡ []) × (vec_capacity t.rows ≡ 32)) }
    {
        Ok(OrderTable {
            rows: Vec::with_capacity(heap, MOST_ORDERS)?,
        })
    }

    /// The orders, in the order in which they are kept.
    pub fn as_slice(&self) -> &[Order]
        ensures { result.now ≡ rows self.now }
    {
        self.rows.as_slice()
    }

    /// Lets all orders go, and keeps the memory.
    pub fn clear(&mut self)
        ensures rows { rows self.new ≡ [] }
        ensures capacity { vec_capacity self.new.rows ≡ vec_capacity self.old.rows }
    {
        self.rows.clear();
    }

    /// Keeps these orders in place of its own, in the memory that is there.
    // One by one, without a call that might ask for memory.
    pub fn refill(&mut self, orders: &[Order])
        requires few { length orders.now ≤ 32 }
        requires room { 32 ≤ vec_capacity self.old.rows }
        ensures rows { rows self.new ≡ orders.now }
        ensures capacity { vec_capacity self.new.rows ≡ vec_capacity self.old.rows }
    {
        self.clear();
        for order in orders {
            self.rows.push_reserved(*order);
        }
    }

    // Lends one row: the table ends with what is written to it there, and nothing else changed.
    fn row(&mut self, i: usize) -> &mut Order
        requires { i < vec_len self.old.rows }
        ensures* follows { sem 𝓛 (follows table_row order_row self.entry.ghost_name result.ghost_name (λ w. record { rows = with_item self.old.rows i w })) }
        ensures value { result.now ≡ slice_index_or (rows self.old) i result.now }
    {
        &mut self.rows[i]
    }

    /// Where the first in rank stands.
    pub fn first(&self, side: Side) -> Option<usize>
        requires { pairwise (before side) (rows self.now) ≡ true }
        ensures { result ≡ front (rows self.now) }
    {
        first_in_rank(&side, self.as_slice())
    }

    /// Takes lots from the first order, which leaves at none.
    pub fn reduce(&mut self, lots: Lots)
        requires { Has (rows self.old) lots.0 }
        ensures rows { rows self.new ≡ reduced (rows self.old) lots.0 }
        ensures capacity { vec_capacity self.new.rows ≡ vec_capacity self.old.rows }
    {
        let left = self.rows[0].lots.0 - lots.0;
        if left == 0 {
            self.rows.remove(0);
        } else {
            let row = self.row(0);
            row.lots = Lots(left);
        }
    }

    // Puts an order in its rank place, in memory that is there. (Side and order go together here and below: a struct of both would
    // only be taken apart.)
    fn place(&mut self, side: Side, order: Order)
        requires { vec_len self.old.rows < vec_capacity self.old.rows }
        ensures rows { rows self.new ≡ placed (before side) order (rows self.old) }
        ensures capacity { vec_capacity self.new.rows ≡ vec_capacity self.old.rows }
    {
        let i = first_behind(&side, self.as_slice(), &order).unwrap_or(self.rows.len());
        let _ = self.rows.insert(i, order);
    }

    /// Puts an order in its rank place, or answers the notice that its lots are dropped where 32 rest.
    pub fn rest(&mut self, side: Side, order: Order) -> Option<Notice>
        requires { 32 ≤ vec_capacity self.old.rows }
        ensures rows { (rows self.new, result) ≡ rested side order (rows self.old) }
        ensures capacity { vec_capacity self.new.rows ≡ vec_capacity self.old.rows }
    {
        if self.rows.len() < MOST_ORDERS {
            self.place(side, order);
            None
        } else {
            Some(lots_notice(Kind::Dropped, order.number, &order))
        }
    }

    /// Puts an order in its rank place, or the notice that its lots are dropped at the front of the list, and says
    /// how many notices that is.
    // The list is lent: nothing allocates on the way of a call.
    pub fn settle(&mut self, side: Side, order: Order, list: &mut [Notice]) -> usize
        requires own_room { 32 ≤ vec_capacity self.old.rows }
        requires long { 1 ≤ length list.old }
        ensures rested { Taken ((rested side order (rows self.old)).0, option_to_list (rested side order (rows self.old)).1) list.old (rows self.new) list.new result }
        ensures capacity { vec_capacity self.new.rows ≡ vec_capacity self.old.rows }
    {
        match self.rest(side, order) {
            None => 0,
            Some(dropped) => {
                list[0] = dropped;
                1
            }
        }
    }

    // Where this order of this member stands. Member and order are the fields of a cancel.
    fn place_found(&self, member: Member, order: CommandNumber) -> Option<usize>
        ensures { result ≡ position (is_of member order) (rows self.now) }
    {
        self.rows
            .iter()
            .position(|row| row.number == order && row.member == member)
    }

    /// Takes this order of this member out.
    pub fn withdraw(&mut self, member: Member, order: CommandNumber) -> Option<Order>
        ensures value { result ≡ found (is_of member order) (rows self.old) }
        ensures rows { rows self.new ≡ without (is_of member order) (rows self.old) }
        ensures capacity { vec_capacity self.new.rows ≡ vec_capacity self.old.rows }
    {
        let i = self.place_found(member, order)?;
        Some(self.rows.remove(i))
    }
}
