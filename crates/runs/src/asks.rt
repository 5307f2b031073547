//! What a line of the input asks for.
ghost use Rattle.std.specs.Prelude.{IfOk, map};
ghost use Rattle.console.specs.Inputs.{held};
ghost use Rattle.runs.specs.Asks.{AskedBy, Asks};

use console::input::LineBuffer;
use jobs::reading::words_of;
use records::commands::Command;
use std::alloc::{AllocError, Global};
use words::{LineFault, command_of};

/// What is asked.
#[derive(Clone, Copy)]
pub(crate) enum Ask {
    /// Nothing: the line is a remark.
    Nothing,
    /// The commands that wait are to be written as a page.
    Commit,
    /// A command is to be taken.
    Take(Command),
}

/// Why a line asks for nothing that can be done.
pub(crate) enum AskFault {
    Line(LineFault),
    NoMemory,
}

impl From<LineFault> for AskFault {
    fn from(fault: LineFault) -> AskFault {
        AskFault::Line(fault)
    }
}

impl From<AllocError> for AskFault {
    fn from(_e: AllocError) -> AskFault {
        AskFault::NoMemory
    }
}

// What the words of a line that is not blank ask for.
fn asked_by(words: &[&str]) -> Result<Ask, LineFault>
    ensures { IfOk result (AskedBy (map (λ x. x.now) words.now)) }
{
    match words {
        [] => Ok(Ask::Nothing),
        ["commit"] => Ok(Ask::Commit),
        ["commit", ..] => Err(LineFault::Form("commit")),
        words => Ok(Ask::Take(command_of(words)?)),
    }
}

/// What a line asks for: a blank one, to commit.
pub(crate) fn ask_of(heap: Global, line: &LineBuffer) -> Result<Ask, AskFault>
    ensures { IfOk result (Asks (held line.now)) }
{
    let text = line.text()?;
    if text.trim().is_empty() {
        return Ok(Ask::Commit);
    }
    Ok(asked_by(&words_of(heap, text)?)?)
}
