//! The commands of the program, and what `--help` prints of each.
ghost use Rattle.std.specs.Prelude.{◌≡◌, MatchOption};
ghost use Rattle.cli.specs.Commands.{command_name, NoCommand};

use std::io;

/// What the program can be asked to do.
#[derive(Clone, Copy)]
pub enum Command {
    Match,
    Page,
    Play,
    Drill,
    SetUp,
    Run,
    Show,
}

// The commands, in the order of the overview.
const COMMANDS: [Command; 7] = [
    Command::Match,
    Command::Page,
    Command::Play,
    Command::Drill,
    Command::SetUp,
    Command::Run,
    Command::Show,
];

/// What is told of a command.
struct Help {
    /// The command with its words.
    form: &'static str,
    /// What it does, in a line.
    does: &'static str,
    /// Its words, one by one, and its exit statuses.
    more: &'static str,
}

const MATCH: Help = Help {
    form: "match [FILE] [--market book|call]",
    does: "match the commands of a file or of standard input in a book (or a call)",
    more: "\
FILE        the file that has the commands, standard input if left out
--market M  the market: book (a running book, if left out) or call (a call auction)

One command a line:
  enter MEMBER buy|sell PRICE LOTS
  cancel MEMBER ORDER
  cross
Blank lines and lines that begin with # are passed over. A line that is no good command is refused with
its reason, and the run goes on.

Status 0 at the end of the input, also where lines were refused; 1 where the words are wrong, or the file,
input, output or memory fails.",
};

const PAGE: Help = Help {
    form: "page [FILE] --sectors N",
    does: "write the commands of a file or of standard input as pages over a ring of sectors, and read them back",
    more: "\
FILE         the file that has the commands, standard input if left out
--sectors N  how many sectors the device has, 9 to 4096

The lines are those of match.

Status 0 at the end of the input, also where lines were refused; 1 where the words are wrong, or the file,
input, output or memory fails.",
};

const PLAY: Help = Help {
    form: "play [SCRIPT..]",
    does: "run scripts on an exchange, and print each answer",
    more: "\
SCRIPT  the name of a file with a script; where none is named, standard input has one

A script says what is set up, and then calls the exchange, a line each:
  house NUMBER, market book|call, device PILE, then setup
  stage enter|cancel|cross as in match, or stage hex BYTES
  write, sync TICKET [LENGTH], deliver RECEIPT, shelve RECEIPT
  snapshot, restart, open, replay [LENGTH]
Tickets and receipts are numbered from 1 as they are answered; LENGTH is that of the list lent for
notices, 1024 if left out. A PILE is direct N, writeback N, offset BASE PILE or mirror PILE PILE, with
N sectors, and after N perhaps cuts COUNT:PLAN,COUNT:PLAN,.. A script with a line that cannot be read
is not run.

Status 0 at the end of the script, also where calls were refused; 1 where a line cannot be read, the
words are wrong, or input, output or memory fails.",
};

const DRILL: Help = Help {
    form: "drill SCRIPT [--plans N] [--pile PILE]",
    does: "cut the power at every call of a script, and check the promises",
    more: "\
SCRIPT       the name of a file with a script as play reads it
--plans N    how many ways are tried at one cut in which the writes that wait are dropped, kept or torn,
             64 if left out
--pile PILE  takes the place of the script's device; it stands last, and its words end the line

A drill makes the cuts itself, so its PILE has none.

Status 0 where every promise was kept; 1 where one was broken, a line of the script cannot be read, the
words are wrong, or the file, output or memory fails.",
};

const SET_UP: Help = Help {
    form: "setup FILE --house H --market book|call --sectors N [--mirror FILE2] [--force]",
    does: "set an exchange up on a file, or on a mirror of two files",
    more: "\
FILE            the file that is made, of 512 bytes a sector
--house H       the number of the house, from 1 on
--market M      the market: book (a running book) or call (a call auction)
--sectors N     how many sectors the file has, 9 to 4096
--mirror FILE2  the other half of a mirror: both files then hold the same
--force         overwrites a file that is there, which is refused else

FILE stands first; the options come in any order, each once.

Status 0 where the exchange is set up; 1 where it is refused, and then no file is made or changed, or
where a file or memory fails.",
};

const RUN: Help = Help {
    form: "run FILE --house H --market book|call [--mirror FILE2] [--format text|csv]",
    does: "open the exchange on a file, or on a mirror of two, and take the commands of standard input",
    more: "\
FILE            the file that the exchange was set up on
--house H       the number of its house
--market M      its market, book or call
--mirror FILE2  the other half of its mirror: both are named at every run
--format F      how it is printed: text, for people, if left out, or csv, a record a line

One command a line, as in match. A page is written at 16 commands, at a blank line or the word commit
alone, and at the end of the input. Its receipt and its notices are printed once the page is safe, and
are delivered once they are printed. What the journal holds is printed again when the exchange opens. A
snapshot is taken where the journal is full, and at the end.

Status 0 at the end of the input, also where lines were refused; 1 where the words are wrong, a file is
not there, in use, no image or another exchange's, and then nothing in it is changed; or where a file,
input, output or memory fails: what has a receipt is safe then.",
};

const SHOW: Help = Help {
    form: "show FILE",
    does: "print what such a file holds, and what an opening would do; nothing is written",
    more: "\
FILE  the file of an exchange, or one half of its mirror

It prints each snapshot with its orders, each page of the journal and what an opening makes of it, and
then what an opening would do, by opening a copy in memory.

Status 0 where the file is an image, whatever it holds; 1 where there is none, it is no image, the words
are wrong, or output or memory fails.",
};

impl Command {
    /// The command of this name.
    pub(crate) fn named(name: &str) -> Option<Command>
        ensures { MatchOption result (NoCommand name.now) (λ c. command_name c ≡ name.now) }
    {
        match name {
            "match" => Some(Command::Match),
            "page" => Some(Command::Page),
            "play" => Some(Command::Play),
            "drill" => Some(Command::Drill),
            "setup" => Some(Command::SetUp),
            "run" => Some(Command::Run),
            "show" => Some(Command::Show),
            _ => None,
        }
    }

    /// Its name.
    pub fn name(self) -> &'static str
        ensures { result.now ≡ command_name self }
    {
        match self {
            Command::Match => "match",
            Command::Page => "page",
            Command::Play => "play",
            Command::Drill => "drill",
            Command::SetUp => "setup",
            Command::Run => "run",
            Command::Show => "show",
        }
    }

    fn help(self) -> &'static Help {
        match self {
            Command::Match => &MATCH,
            Command::Page => &PAGE,
            Command::Play => &PLAY,
            Command::Drill => &DRILL,
            Command::SetUp => &SET_UP,
            Command::Run => &RUN,
            Command::Show => &SHOW,
        }
    }
}

/// The form of one command, what it does, its words and its statuses.
pub(crate) fn print_help(rt: &HostRuntime, command: Command) -> io::Result<()> {
    let Help { form, does, more } = command.help();
    println!(rt; "usage: hammerbuff {form}")?;
    println!(rt; "{does}\n\n{more}")?;
    Ok(())
}

/// The forms of all commands, and what each does.
pub(crate) fn print_overview(rt: &HostRuntime) -> io::Result<()> {
    println!(rt; "usage: hammerbuff COMMAND ..")?;
    for command in COMMANDS {
        let Help { form, does, .. } = command.help();
        println!(rt; "  {form}\n      {does}")?;
    }
    println!(rt;
        "hammerbuff COMMAND --help tells more of one; what is wrong goes to standard error, with status 1"
    )?;
    Ok(())
}
