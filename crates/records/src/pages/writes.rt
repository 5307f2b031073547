ghost use Rattle.std.specs.Prelude.{◌≡◌, ◌+◌, ◌*◌, ◌≤◌, true, [], length};
ghost use Rattle.std.specs.List.{flat_map};
ghost use Rattle.records.specs.Commands.{encoded};
ghost use Rattle.records.specs.Pages.{page_of, all_good, numbers_good, good_page, head_bytes, page_sector_bytes, encoded_page, PageKept};

use super::PageHead;
use super::batches::MOST_COMMANDS;
use crate::buffers::Record;
use crate::commands::Command;
use crate::kinds::RecordKind;
use crate::numbers::LAST_NUMBER;

// How many bytes the record of a command has: the lengths are the layout's.
pub(crate) fn record_size(command: &Command) -> u16
    ensures value { result ≡ length (encoded command.now) }
    ensures bound { result ≤ 18 }
{
    match *command {
        Command::Enter { .. } => 18,
        Command::Cancel { .. } => 16,
        Command::Cross => 4,
    }
}

// How many bytes the records of `commands` have together.
fn total_size(commands: &[Command]) -> u16
    requires { length commands.now ≤ 16 }
    ensures value { result ≡ length (flat_map encoded commands.now) }
    ensures bound { result ≤ 18 * length commands.now }
{
    commands.iter().map(record_size).sum()
}

// Whether each command is good.
fn are_good(commands: &[Command]) -> bool
    ensures { result ≡ all_good commands.now }
{
    commands.iter().all(|command| command.is_good())
}

impl PageHead {
    // Whether a page with this head and so many commands has its numbers in their ranges.
    pub(crate) fn has_good_numbers(self, count: usize) -> bool
        ensures { result ≡ numbers_good self count }
    {
        1 <= self.number.0
            && 1 <= self.first.0
            && (1..=MOST_COMMANDS).contains(&count)
            && self.first.0 <= LAST_NUMBER + 1 - count as u64
    }

    // Writes the bytes in front of the commands.
    fn put(self, out: &mut Record, commands: &[Command])
        requires { (out.old ≡ []) × (length commands.now ≤ 16) }
        ensures bytes { out.new ≡ head_bytes self commands.now }
        ensures len { length out.new ≡ 28 }
    {
        out.put(28 + total_size(commands));
        out.put(RecordKind::Page as u16);
        out.put(self.house.0);
        out.put(self.number.0);
        out.put(self.first.0);
        out.put(commands.len() as u16);
        out.put(0u16);
    }

    // The sector of the page with this head and these commands.
    fn sector(&self, commands: &[Command]) -> [u8; 512]
        requires { length commands.now ≤ 16 }
        ensures { result ≡ page_sector_bytes (page_of self.now commands.now) }
    {
        let mut out = Record::new();
        self.put(&mut out, commands);
        for command in commands {
            command.encode_after(&mut out);
        }
        out.into_array()
    }

    /// The sector of the page with this head and these commands; none where that is no good page.
    pub fn encode(self, commands: &[Command]) -> Option<[u8; 512]>
        ensures sector { result ≡ encoded_page (page_of self commands.now) }
        ensures kept { good_page (page_of self commands.now) ≡ true → PageKept (page_of self commands.now) }
    {
        if !self.has_good_numbers(commands.len()) || !are_good(commands) {
            return None;
        }
        Some(self.sector(commands))
    }
}
