//! The notices of orders, as a market writes them: not counted yet.
ghost use Rattle.std.specs.Prelude.{◌≡◌};
ghost use Rattle.market.specs.Orders.{party, fill, lots_of};

use crate::orders::Order;
use records::notices::{Kind, Notice, Party};
use records::numbers::{CommandNumber, Lots, Member, NoticeNumber, Price};

fn party_of(order: &Order) -> Party
    ensures { result ≡ party order.now }
{
    Party {
        order: order.number,
        member: order.member,
    }
}

/// Lots of a buy and a sell changed hands at a price.
pub fn fill_notice(
    command: CommandNumber,
    buy: &Order,
    sell: &Order,
    price: Price,
    lots: Lots,
) -> Notice
    ensures { result ≡ fill command buy.now sell.now price lots.0 }
{
    Notice {
        number: NoticeNumber(0),
        command,
        kind: Kind::Fill,
        a: party_of(buy),
        b: party_of(sell),
        price,
        lots,
    }
}

/// All lots of an order were dropped or cancelled.
// The zeros are written out, as they are sent.
pub fn lots_notice(kind: Kind, command: CommandNumber, order: &Order) -> Notice
    ensures { result ≡ lots_of kind command order.now }
{
    Notice {
        number: NoticeNumber(0),
        command,
        kind,
        a: party_of(order),
        b: Party {
            order: CommandNumber(0),
            member: Member(0),
        },
        price: Price(0),
        lots: order.lots,
    }
}
