//! Why a line of a script is refused.
ghost use Rattle.std.specs.Prelude.{◌≡◌};
ghost use Rattle.hex.specs.declared.error.FromHexError.TheVariants as hex;
ghost use Rattle.play_words.specs.declared.faults.PlayFault.TheVariants.{Number};
ghost use Rattle.play_words.specs.declared.faults.PlayFault.TheVariants as fault;

use hex::FromHexError;
use pile_words::PileFault;
use std::alloc::{AllocError, AllocFailed};
use std::fmt;
use words::{LineFault, NoNumber};

/// Why a line is no part of a script.
#[derive(Clone, Copy)]
pub enum PlayFault {
    /// The line is no text, or its words after `stage` are no command's.
    Line(LineFault),
    /// The words after `device` are no pile.
    Pile(PileFault),
    /// Its first word is none of a script's.
    Unknown,
    /// It has not the words that are named here.
    Form(&'static str),
    /// The word for what is named here is no number that fits.
    Number(&'static str),
    /// The word is not of hex digits, two a byte.
    Hex,
    /// What is named here was said already.
    Twice(&'static str),
    /// The script does not say what is named here before its `setup`.
    Missing(&'static str),
    /// A call stands above `setup`.
    Early,
    /// The script ends before its `setup`.
    NoSetup,
    NoMemory,
}

/// The line that a script was refused for, and why.
#[derive(Clone, Copy)]
pub struct ScriptFault {
    pub line: u64,
    pub why: PlayFault,
}

impl fmt::Display for PlayFault {
    fn fmt<W: fmt::Write>(&self, f: &mut fmt::Formatter<W>) -> fmt::Result {
        match *self {
            PlayFault::Line(fault) => write!(f, "{fault}"),
            PlayFault::Pile(fault) => write!(f, "{fault}"),
            PlayFault::Unknown => write!(f, "the first word is none of a script's"),
            PlayFault::Form(form) => write!(f, "the form is {form}"),
            PlayFault::Number(what) => write!(f, "the {what} is not a number that fits"),
            PlayFault::Hex => write!(f, "bytes are written as hex digits, two a byte"),
            PlayFault::Twice(what) => write!(f, "the {what} was said already"),
            PlayFault::Missing(what) => write!(f, "say the {what} before setup"),
            PlayFault::Early => write!(f, "calls stand below setup"),
            PlayFault::NoSetup => write!(f, "the script ends before its setup"),
            PlayFault::NoMemory => write!(f, "there is not enough memory"),
        }
    }
}

impl fmt::Display for ScriptFault {
    fn fmt<W: fmt::Write>(&self, f: &mut fmt::Formatter<W>) -> fmt::Result {
        let (line, why) = (self.line, self.why);
        write!(f, "line {line} of the script: {why}")
    }
}

impl From<LineFault> for PlayFault {
    fn from(fault: LineFault) -> PlayFault {
        PlayFault::Line(fault)
    }
}

impl From<PileFault> for PlayFault {
    fn from(fault: PileFault) -> PlayFault {
        PlayFault::Pile(fault)
    }
}

impl From<NoNumber> for PlayFault {
    ghost from_gives = { λ n f. f ≡ Number n.0 };

    fn from(fault: NoNumber) -> PlayFault {
        PlayFault::Number(fault.0)
    }
}

impl From<FromHexError> for PlayFault {
    ghost from_gives = { λ e f. (e ≡ hex.OutOfMemory → f ≡ fault.NoMemory) × ((e ≡ hex.OutOfMemory → ⊥) → f ≡ fault.Hex) };

    fn from(fault: FromHexError) -> PlayFault {
        match fault {
            FromHexError::OutOfMemory => PlayFault::NoMemory,
            _ => PlayFault::Hex,
        }
    }
}

impl From<AllocError> for PlayFault {
    fn from(_e: AllocError) -> PlayFault {
        PlayFault::NoMemory
    }
}

impl<T: Drop> From<AllocFailed<T>> for PlayFault {
    fn from(_e: AllocFailed<T>) -> PlayFault {
        PlayFault::NoMemory
    }
}
