//! The orders that rest on both sides, and the number of the last command.
ghost use Rattle.std.specs.Prelude.{◌≡◌, ◌<◌, ◌≤◌, length, IfOk};

use crate::notes::lots_notice;
use crate::orders::Order;
use crate::tables::OrderTable;
use records::notices::{Kind, Notice};
use records::numbers::{CommandNumber, Lots, Member, Price};
use std::alloc::{AllocError, Global};

/// What a market keeps between commands. It has no invariant of its own, so that it asks nothing of
/// whoever builds one: the market says what holds of its orders, and that there is memory for all
/// that may rest.
#[derive(Drop)]
pub struct RestingOrders {
    pub last: CommandNumber,
    pub buys: OrderTable,
    pub sells: OrderTable,
}

impl RestingOrders {
    ghost use Rattle.market.specs.Resting.{nothing, arriving, passed, withdrawn};
    ghost use Rattle.market.specs.Steps.{Taken};
    ghost use Rattle.market.specs.Means.{state_of, HasRoom};

    /// Nothing has come yet, and there is memory for all that may rest.
    pub fn with_room(heap: Global) -> Result<RestingOrders, AllocError>
        ensures { IfOk result (λ h. (state_of h ≡ nothing) × HasRoom h) }
    {
        Ok(RestingOrders {
            last: CommandNumber(0),
            buys: OrderTable::with_room(heap)?,
            sells: OrderTable::with_room(heap)?,
        })
    }

    /// As if nothing had come.
    pub fn clear(&mut self)
        ensures state { state_of self.new ≡ nothing }
        ensures room { HasRoom self.old → HasRoom self.new }
    {
        self.last = CommandNumber(0);
        self.buys.clear();
        self.sells.clear();
    }

    /// A command takes its number, and does nothing else.
    // Asked of the caller, and not of the type: a state in which all numbers are spent is a good one, too.
    pub fn pass(&mut self)
        requires { self.old.last.0 < 1000000000000 }
        ensures state { state_of self.new ≡ passed (state_of self.old) }
        ensures room { HasRoom self.old → HasRoom self.new }
    {
        self.last = CommandNumber(self.last.0 + 1);
    }

    /// An order enters, under its command's number. Member, price and lots are the fields of the command, in its order.
    pub fn arrive(&mut self, member: Member, price: Price, lots: Lots) -> Order
        requires { self.old.last.0 < 1000000000000 }
        ensures order { result ≡ arriving (state_of self.old) member price lots }
        ensures state { state_of self.new ≡ passed (state_of self.old) }
        ensures room { HasRoom self.old → HasRoom self.new }
    {
        self.pass();
        Order {
            number: self.last,
            member,
            price,
            lots,
        }
    }

    /// This order of this member leaves, with a notice of its lots.
    // The list is lent: nothing allocates on the way of a call.
    pub fn cancel(&mut self, member: Member, order: CommandNumber, list: &mut [Notice]) -> usize
        requires more { self.old.last.0 < 1000000000000 }
        requires long { 1 ≤ length list.old }
        ensures state { Taken (withdrawn (state_of self.old) member order) list.old (state_of self.new) list.new result }
        ensures room { HasRoom self.old → HasRoom self.new }
    {
        self.pass();
        let bought = self.buys.withdraw(member, order);
        let sold = self.sells.withdraw(member, order);
        match bought.or(sold) {
            None => 0,
            Some(withdrawn) => {
                list[0] = lots_notice(Kind::Cancelled, self.last, &withdrawn);
                1
            }
        }
    }
}
