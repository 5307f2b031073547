//! What the exchange tells its members.
ghost use Rattle.std.specs.Prelude.{◌≡◌};
ghost use Rattle.records.specs.Notices.{kind_of_notice};

use crate::numbers::{CommandNumber, Lots, Member, NoticeNumber, Price};

/// What happened to the lots of a notice.
#[derive(Clone, Copy, PartialEq, Eq, Debug, Default)]
pub enum Kind {
    /// They changed hands: `a` bought them and `b` sold them.
    #[default]
    Fill = 1,
    /// They found no place to rest.
    Dropped = 2,
    /// Their member took them back.
    Cancelled = 3,
}

impl Kind {
    /// The kind's number, 1 to 3.
    pub fn number(self) -> u8
        ensures { result ≡ kind_of_notice self }
    {
        self as u8
    }
}

/// One side of a notice: an order and its member; both 0 where the notice has no such side.
#[derive(Clone, Copy, PartialEq, Eq, Debug, Default)]
pub struct Party {
    pub order: CommandNumber,
    pub member: Member,
}

/// One thing that a command did. A fill has the buy as `a` and the sell as `b`; lots that are
/// dropped or cancelled have their order as `a`, and 0 in `b` and in the price.
// Every notice has the same fields, with 0 where it has no such thing: so it is sent out, and so it is compared.
#[derive(Clone, Copy, PartialEq, Eq, Debug, Default)]
pub struct Notice {
    pub number: NoticeNumber,
    pub command: CommandNumber,
    pub kind: Kind,
    pub a: Party,
    pub b: Party,
    pub price: Price,
    pub lots: Lots,
}
