//! Lines of an input, handed on as commands.
ghost use Rattle.std.specs.Prelude.{◌≡◌, ◌<◌, ◌⊎◌, [], length, Ok, IfErr, IfOk, OnOk};
ghost use Rattle.std.specs.List.{All};
ghost use Rattle.std.specs.Fn.{FnOnceReturnsAt};
ghost use Rattle.console.specs.Inputs.{held};
ghost use Rattle.jobs.specs.Files.{NotOpened};
ghost use Rattle.jobs.specs.Lines.{Wordless};
ghost use Rattle.jobs.specs.Ranges.{SaysRange};

use crate::faults::JobFault;
use console::input::LineBuffer;
use console::input::lines::each_line;
use records::commands::Command;
use records::refusals::Refusal;
use std::alloc::{AllocError, Global};
use std::fs::File;
use std::io;
use std::io::Read;
use words::{LineFault, command_of};

/// Why a command is not taken: it is refused, or the job ends.
pub(crate) enum NotTaken {
    Refused(Refusal, LineFault),
    Stopped(JobFault),
}

impl From<LineFault> for NotTaken {
    fn from(fault: LineFault) -> NotTaken {
        NotTaken::Refused(Refusal::NotACommand, fault)
    }
}

impl From<JobFault> for NotTaken {
    fn from(fault: JobFault) -> NotTaken {
        NotTaken::Stopped(fault)
    }
}

impl From<io::Error> for NotTaken {
    fn from(e: io::Error) -> NotTaken {
        NotTaken::Stopped(JobFault::Io(e))
    }
}

impl From<AllocError> for NotTaken {
    fn from(_e: AllocError) -> NotTaken {
        NotTaken::Stopped(JobFault::NoMemory)
    }
}

/// Who takes the commands.
pub(crate) trait Taker {
    /// Takes a command, and prints what came of it.
    fn take_command(&mut self, rt: &HostRuntime, command: Command) -> Result<(), NotTaken>;
}

/// Which number of a command that is no good one is out of its range.
pub fn range_fault(command: &Command) -> LineFault
    ensures { SaysRange command.now result }
{
    match *command {
        Command::Enter { member, .. } | Command::Cancel { member, .. } if !member.is_good() => {
            LineFault::Range("a member is 1 to 999999")
        }
        Command::Enter { price, .. } if !price.is_good() => {
            LineFault::Range("a price is 1 to 1000000")
        }
        Command::Enter { .. } => LineFault::Range("the lots are 1 to 1000000"),
        _ => LineFault::Range("an order is 1 to 1000000000000"),
    }
}

/// The words of a line: none where it is blank or begins with #.
pub fn words_of(heap: Global, line: &str) -> Result<Vec<&str>, AllocError>
    ensures words { IfOk result (λ words. All (λ word. 0 < length word.now) words.items) }
    ensures none { IfOk result (λ words. words.items ≡ [] → Wordless line.now) }
{
    let line = line.trim();
    if line.starts_with('#') {
        return Ok(Vec::new(heap));
    }
    line.split_whitespace().collect(heap)
}

/// Hands the words of a line on, where it has any.
pub fn take_words<E: From<LineFault> + From<AllocError>, F: FnOnce(&[&str]) -> Result<(), E>>(
    heap: Global,
    line: &LineBuffer,
    take: F,
) -> Result<(), E>
    requires { F.IsAlwaysCallable take }
    ensures { OnOk result (Wordless (held line.now) ⊎ ((words : _) × All (λ word. 0 < length word.now) words × FnOnceReturnsAt F.FnOnce take words (Ok tt))) }
{
    let words = words_of(heap, line.text()?)?;
    if words.is_empty() {
        return Ok(());
    }
    take(&words)
}

// What a whole line says.
fn take_line<T: Taker>(rt: &HostRuntime, taker: &mut T, line: &LineBuffer) -> Result<(), NotTaken> {
    take_words(rt.alloc(), line, |words| {
        taker.take_command(rt, command_of(words)?)
    })
}

// Takes the commands of the whole input; how many lines were refused. The closure counts what it refuses: nothing enumerates that.
fn take_lines<I: Read + Drop, T: Taker>(
    rt: &HostRuntime,
    input: I,
    taker: &mut T,
) -> Result<u64, JobFault> {
    let mut refused: u64 = 0;
    each_line(
        rt.alloc(),
        input,
        |line, buffer| match take_line(rt, taker, buffer) {
            Ok(()) => Ok(()),
            Err(NotTaken::Refused(reason, fault)) => {
                refused = refused.saturating_add(1);
                let reason = reason.number();
                println!(rt; "line {line} refused {reason}: {fault}")?;
                Ok(())
            }
            Err(NotTaken::Stopped(fault)) => Err(fault),
        },
    )?;
    Ok(refused)
}

/// Opens the file of this name to read it.
pub fn open_file(rt: &HostRuntime, name: &str) -> Result<File, JobFault>
    ensures { IfErr result (NotOpened name.now) }
{
    match File::open(rt, name) {
        Ok(file) => Ok(file),
        Err(error) => Err(JobFault::File {
            name: String::from_str(rt.alloc(), name)?,
            error,
        }),
    }
}

// Takes the commands of the file of this name, or of standard input; how many lines were refused.
pub(crate) fn take_from<T: Taker>(
    rt: &HostRuntime,
    file: Option<&str>,
    taker: &mut T,
) -> Result<u64, JobFault> {
    match file {
        Some(name) => take_lines(rt, open_file(rt, name)?, taker),
        None => take_lines(rt, rt.stdin(), taker),
    }
}
