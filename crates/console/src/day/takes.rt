ghost use Rattle.std.specs.Prelude.{◌≡◌, IfOk};
ghost use Rattle.records.specs.Commands.{decoded};
ghost use Rattle.console.specs.Days.{Took};

use super::Day;
use market::interface::Market;
use records::commands::Command;
use records::counting::count_front;
use records::notices::Notice;
use records::numbers::{CommandNumber, LAST_NUMBER, NoticeNumber};
use records::refusals::Refusal;
use std::alloc::{AllocError, Global};

impl<M: Market> Day<M> {
    /// A fresh market, and nothing has come.
    pub fn new(heap: Global) -> Result<Day<M>, AllocError>
        ensures { IfOk result (λ d. (M.means d.market ≡ M.start) × (d.commands.0 ≡ 0) × (d.notices.0 ≡ 0)) }
    {
        Ok(Day {
            market: M::new(heap)?,
            list: [Notice::default(); 64],
            commands: CommandNumber(0),
            notices: NoticeNumber(0),
        })
    }

    /// Takes the bytes of a command: its notices then stand, counted, in the front of the list.
    pub fn take(&mut self, bytes: &[u8]) -> Result<usize, Refusal>
        ensures { Took M.step (decoded bytes.now)
            (record { state = M.means self.old.market; commands = self.old.commands.0; notices = self.old.notices.0; list = self.old.list })
            (record { state = M.means self.new.market; commands = self.new.commands.0; notices = self.new.notices.0; list = self.new.list }) result }
    {
        let command = Command::decode(bytes)?;
        let Day {
            market,
            list,
            commands,
            notices,
        } = self;
        if commands.0 >= LAST_NUMBER {
            return Err(Refusal::NumbersSpent);
        }
        let n = market.apply(&command, list)?;
        count_front(list, n, *notices);
        commands.0 += 1;
        notices.0 += n as u64;
        Ok(n)
    }

    /// The number of the last command.
    pub fn commands(&self) -> CommandNumber
        ensures { result ≡ self.now.commands }
    {
        self.commands
    }

    /// The number of the last notice.
    pub fn notices(&self) -> NoticeNumber
        ensures { result ≡ self.now.notices }
    {
        self.notices
    }

    /// The list, in the front of which the newest notices stand.
    pub fn list(&self) -> &[Notice]
        ensures { result.now ≡ self.now.list }
    {
        &self.list
    }
}
