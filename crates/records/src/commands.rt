//! What members ask of the exchange.
use crate::numbers::{CommandNumber, Lots, Member, Price};

pub mod codes;

/// Its number in a record is 0 or 1.
#[derive(Clone, Copy, PartialEq, Eq, Debug)]
pub enum Side {
    Buy = 0,
    Sell = 1,
}

/// A number that is no side's.
#[derive(Clone, Copy, PartialEq, Eq, Debug)]
pub struct NoSide(pub u16);

/// A command, whether or not its numbers lie in their ranges: `is_good` tells.
#[derive(Clone, Copy, PartialEq, Eq, Debug, Default)]
pub enum Command {
    /// Buys or sells so many lots at this price or a better one.
    Enter {
        member: Member,
        side: Side,
        price: Price,
        lots: Lots,
    },
    /// Takes back what rests of an order of this member.
    Cancel {
        member: Member,
        order: CommandNumber,
    },
    /// Crosses the resting orders of a call auction.
    #[default]
    Cross,
}
