//! Why a call is refused.

pub mod reasons;

/// The nineteen reasons, under their numbers. A call gives the first that fits.
#[derive(Clone, Copy, PartialEq, Eq, Debug)]
pub enum Refusal {
    /// Set up or open: the house number is 0.
    NoHouse = 1,
    /// Set up or open: the device has fewer than 9 sectors or more than 4,096.
    DeviceSize = 2,
    /// The exchange's phase does not allow this call.
    WrongPhase = 3,
    /// The bytes are no good command.
    NotACommand = 4,
    /// 16 commands are staged already.
    PageFull = 5,
    /// The command's number would pass the last one.
    NumbersSpent = 6,
    /// Write finds no staged command.
    NothingStaged = 7,
    /// The next page would overwrite one that no snapshot covers.
    JournalFull = 8,
    /// The lent list is too short for the notices that may come.
    ShortList = 9,
    /// The ticket is not the written page's.
    WrongTicket = 10,
    /// The receipt is another exchange's, or its notices are not the next ones.
    WrongReceipt = 11,
    /// Snapshot: the last page is covered already.
    AlreadyCovered = 12,
    /// Snapshot: notices are not delivered yet.
    Undelivered = 13,
    /// A device is asked for a sector at or past its size.
    PastTheEnd = 14,
    /// The power of a device was cut.
    PowerCut = 15,
    /// A sector reads as torn.
    TornSector = 16,
    /// No good snapshot header can be read.
    NoHeader = 17,
    /// The snapshot's body is torn, no state of the market, or not of the header's command.
    BadBody = 18,
    /// The page looked for stands in its sector, but is not good or not the next one.
    BadPage = 19,
}
