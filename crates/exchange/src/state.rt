//! An exchange.
ghost use Rattle.std.specs.Prelude.{◌≡◌, ◌+◌, ◌*◌, ◌≤◌, true, vec_len, vec_capacity};
ghost use Rattle.records.specs.Pages.{all_good};
ghost use Rattle.exchange.specs.Ranges.{waits};

use device::Device;
use journal::slots::Slot;
use market::interface::Market;
use protocol::phases::Phase;
use records::commands::Command;
use records::numbers::{CommandNumber, HouseNumber, NoticeNumber, PageNumber};

/// An exchange over a market and a device. Its own numbers go together (the ghost fields); what ties them to the market and
/// the device is proved over runs.
#[derive(Drop)]
pub struct Exchange<M, D> {
    pub(crate) house: HouseNumber,
    pub(crate) phase: Phase,
    // Its memory is reserved when the exchange is made, as that of every table (`room`), and a page has at most 16 (`few`).
    pub(crate) staged: Vec<Command>,
    pub(crate) pages: PageNumber,
    pub(crate) commands: CommandNumber,
    pub(crate) notices: NoticeNumber,
    pub(crate) mark: NoticeNumber,
    pub(crate) covered: PageNumber,
    pub(crate) slot: Slot,
    pub(crate) market: M,
    pub(crate) device: D,
    ghost good: { all_good staged.items ≡ true },
    ghost room: { 16 ≤ vec_capacity staged },
    ghost few: { vec_len staged ≤ 16 },
    ghost numbers: { commands.0 + vec_len staged ≤ 1000000000000 },
    ghost full: { pages.0 ≤ commands.0 },
    ghost told: { notices.0 ≤ 64 * commands.0 },
    ghost marked: { mark.0 ≤ notices.0 },
    ghost covering: { covered.0 ≤ pages.0 },
    ghost sent: { waits phase (vec_len staged) ≡ true },
}
