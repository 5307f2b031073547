//! A body is read.
ghost use Rattle.std.specs.Prelude.{◌≡◌, ◌+◌, ◌*◌, ◌≤◌, length};
ghost use Rattle.std.specs.Option.{option_map};
ghost use Rattle.market.specs.Lists.{across};
ghost use Rattle.market.specs.Orders.{below};
ghost use Rattle.market.specs.Resting.{sound};
ghost use Rattle.market.specs.Means.{state_of, HasRoom};
ghost use Rattle.body.specs.Layout.{order_at, orders_at};
ghost use Rattle.body.specs.Loads.{held, reads};

use crate::checks::{are_apart, is_sound_state};
use crate::image::Image;
use crate::writing::write_body;
use arrayvec::ArrayVec;
use market::orders::Order;
use market::resting::RestingOrders;
use market::tables::MOST_ORDERS;
use records::little_endian::LittleEndian;
use records::numbers::{CommandNumber, Lots, Member, Price};

fn get_order(bytes: &[u8], at: usize) -> Order
    requires { at + 20 ≤ length bytes.now }
    ensures { result ≡ order_at bytes.now at }
{
    Order {
        number: CommandNumber(u64::take(bytes, at)),
        member: Member(u32::take(bytes, at + 8)),
        price: Price(u32::take(bytes, at + 12)),
        lots: Lots(u32::take(bytes, at + 16)),
    }
}

// Reads n orders, one after another. Orders are counted here, and no slice is: a place is in bytes, from `at` on.
fn get_orders(bytes: &[u8], at: usize, n: usize) -> ArrayVec<Order, MOST_ORDERS>
    requires inside { at + 20 * n ≤ length bytes.now }
    requires few { n ≤ 32 }
    ensures { result.items ≡ orders_at bytes.now at n }
{
    let mut orders = ArrayVec::new();
    for i in 0..n {
        orders.push(get_order(bytes, at + 20 * i));
    }
    orders
}

/// The state whose body these bytes are, with at most 32 orders a side: the bytes are those that the
/// state is written as.
pub fn read_body(from: &[u8; 1536]) -> Option<Image>
    ensures { option_map held result ≡ reads from.now }
{
    let last = CommandNumber(u64::take(from, 0));
    let bought = u16::take(from, 8) as usize;
    let sold = u16::take(from, 10) as usize;
    if bought > MOST_ORDERS || sold > MOST_ORDERS {
        return None;
    }
    let buys = get_orders(from, 12, bought);
    let sells = get_orders(from, 12 + 20 * bought, sold);
    let mut again = [0; 1536];
    write_body(last, buys.as_slice(), sells.as_slice(), &mut again);
    if again != *from {
        return None;
    }
    Some(Image { last, buys, sells })
}

impl Image {
    /// Whether the state is sound, as every market's is.
    pub fn is_sound(&self) -> bool
        ensures { result ≡ sound (held self.now) }
    {
        is_sound_state(self.last, self.buys.as_slice(), self.sells.as_slice())
    }

    /// Whether every buy is below every sell in price.
    pub fn is_apart(&self) -> bool
        ensures { result ≡ across below (held self.now).buys (held self.now).sells }
    {
        are_apart(self.buys.as_slice(), self.sells.as_slice())
    }

    /// Puts the state in place of another, in the memory that is there.
    pub fn restore(&self, resting: &mut RestingOrders)
        requires { HasRoom resting.old }
        ensures state { state_of resting.new ≡ held self.now }
        ensures room { HasRoom resting.new }
    {
        resting.last = self.last;
        resting.buys.refill(self.buys.as_slice());
        resting.sells.refill(self.sells.as_slice());
    }
}
