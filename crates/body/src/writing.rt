//! A body is written.
ghost use Rattle.std.specs.Prelude.{◌≡◌, ◌+◌, ◌*◌, ◌≤◌, ◌++◌, length};
ghost use Rattle.body.specs.Layout.{order_bytes, orders_bytes, body};

use market::orders::Order;
use records::buffers::RecordBuffer;
use records::numbers::CommandNumber;

fn put_order(out: &mut RecordBuffer<1536>, order: &Order)
    requires { length out.old + 20 ≤ 1536 }
    ensures bytes { out.new ≡ out.old ++ order_bytes order.now }
    ensures len { length out.new ≡ length out.old + 20 }
{
    out.put(order.number.0);
    out.put(order.member.0);
    out.put(order.price.0);
    out.put(order.lots.0);
}

// Writes the orders one after another.
fn put_orders(out: &mut RecordBuffer<1536>, orders: &[Order])
    requires { length out.old + 20 * length orders.now ≤ 1536 }
    ensures bytes { out.new ≡ out.old ++ orders_bytes orders.now }
    ensures len { length out.new ≡ length out.old + 20 * length orders.now }
{
    for order in orders {
        put_order(out, order);
    }
}

/// Writes the body of a state.
pub fn write_body(last: CommandNumber, buys: &[Order], sells: &[Order], out: &mut [u8; 1536])
    requires { (length buys.now ≤ 32) × (length sells.now ≤ 32) }
    ensures { out.new ≡ body (record { last = last.0; buys = buys.now; sells = sells.now }) }
{
    let mut body = RecordBuffer::new();
    body.put(last.0);
    body.put(buys.len() as u16);
    body.put(sells.len() as u16);
    put_orders(&mut body, buys);
    put_orders(&mut body, sells);
    *out = body.into_array();
}
