//! The commands of a made-up market: a price that drifts, orders of both sides around it, and cancels of orders that rest.
use book::shape::Book;
use market::orders::Order;
use records::commands::{Command, Side};
use records::numbers::{Lots, Member, Price};

/// A stream of commands: it depends on nothing but what rests in the book that its commands go to.
#[derive(Drop)]
pub(crate) struct Stream {
    seed: u64,
    // The price around which the orders lie.
    mid: u32,
}

// An order of the side that is cancelled, where one rests at this place.
fn cancel_at(orders: &[Order], place: u32) -> Option<Command> {
    let order = orders.get(place as usize)?;
    Some(Command::Cancel {
        member: order.member,
        order: order.number,
    })
}

impl Stream {
    pub(crate) fn new() -> Stream {
        Stream {
            seed: 1,
            mid: 10_000,
        }
    }

    // The next number below n.
    fn below(&mut self, n: u32) -> u32 {
        self.seed = self
            .seed
            .wrapping_mul(6_364_136_223_846_793_005)
            .wrapping_add(1_442_695_040_888_963_407);
        ((self.seed >> 32).wrapping_mul(u64::from(n)) >> 32) as u32
    }

    // An order that enters. Most buys lie below the price and most sells above it, and about a third reach across.
    fn enter(&mut self) -> Command {
        let drift = self.below(3);
        self.mid = self
            .mid
            .saturating_add(drift)
            .saturating_sub(1)
            .clamp(1_000, 100_000);
        let noise = self.below(24);
        let member = Member(self.below(1000).wrapping_add(1));
        let lots = Lots(self.below(100).wrapping_add(1));
        let (side, price) = match self.below(2) {
            0 => (Side::Buy, self.mid.saturating_add(8).saturating_sub(noise)),
            _ => (Side::Sell, self.mid.saturating_sub(8).saturating_add(noise)),
        };
        let price = Price(price);
        Command::Enter {
            member,
            side,
            price,
            lots,
        }
    }

    /// The next command: an order, or (about one in four, where the book is full) a cancel of one that rests.
    pub(crate) fn next_command(&mut self, book: &Book) -> Command {
        let place = self.below(32);
        let cancel = match self.below(8) {
            0 => cancel_at(book.buys(), place),
            1 => cancel_at(book.sells(), place),
            _ => None,
        };
        match cancel {
            Some(command) => command,
            None => self.enter(),
        }
    }
}
