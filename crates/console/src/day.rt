//! A day of commands in one market, with no journal behind it.
ghost use Rattle.std.specs.Prelude.{◌≡◌, ◌*◌, ◌≤◌};

use market::interface::Market;
use records::notices::Notice;
use records::numbers::{CommandNumber, NoticeNumber};

pub mod takes;

/// A market, the list that it writes its notices to, and how many commands and notices have come.
#[derive(Drop)]
pub struct Day<M: Market> {
    pub market: M,
    // Lent whole to the market at each command, so that nothing allocates there.
    list: [Notice; 64],
    commands: CommandNumber,
    notices: NoticeNumber,
    ghost few: { (commands.0 ≤ 1000000000000) × (notices.0 ≤ 64 * commands.0) },
    ghost counted: { M.count (M.means market) ≡ commands.0 },
}
