//! Numbers with a meaning of their own. A struct each, so that nothing that takes one takes another.

mod ranges;

/// The largest number that a command can have.
pub const LAST_NUMBER: u64 = 1_000_000_000_000;

/// The largest member's number.
pub const LAST_MEMBER: u32 = 999_999;

/// The highest price, in cents.
pub const HIGHEST_PRICE: u32 = 1_000_000;

/// How many lots an order may enter with.
pub const MOST_LOTS: u32 = 1_000_000;

/// The place of a command among all commands, from 1. An entered order keeps its command's number
/// as its own; 0 stands for none.
#[derive(Clone, Copy, PartialEq, Eq, PartialOrd, Ord, Debug, Default)]
pub struct CommandNumber(pub u64);

/// The place of a page in the journal, from 1; 0 stands for none.
#[derive(Clone, Copy, PartialEq, Eq, PartialOrd, Ord, Debug, Default)]
pub struct PageNumber(pub u64);

/// The place of a notice among all notices, from 1; 0 where the exchange has not counted it yet.
#[derive(Clone, Copy, PartialEq, Eq, PartialOrd, Ord, Debug, Default)]
pub struct NoticeNumber(pub u64);

/// Tells one exchange from another, so that neither takes the other's records for its own.
#[derive(Clone, Copy, PartialEq, Eq, PartialOrd, Ord, Debug, Default)]
pub struct HouseNumber(pub u32);

/// Who sends a command: 1 to 999,999; 0 stands for none.
#[derive(Clone, Copy, PartialEq, Eq, PartialOrd, Ord, Debug, Default)]
pub struct Member(pub u32);

/// A price for one lot, in cents: 1 to 1,000,000.
#[derive(Clone, Copy, PartialEq, Eq, PartialOrd, Ord, Debug, Default)]
pub struct Price(pub u32);

/// How many lots: 1 to 1,000,000 in an order that enters.
#[derive(Clone, Copy, PartialEq, Eq, PartialOrd, Ord, Debug, Default)]
pub struct Lots(pub u32);
