//! Commands from words.
//!
//! Proved: words are read as the command that they spell, and a text as the number that it writes; they are refused only where
//! they spell no command, or write no number, that fits. Not proved: which fault is told.
//! Trusted: the toolchain.
#![tactic(auto)]

ghost use Rattle.std.specs.Prelude.{◌≡◌, ◌∷◌, map, codes, MatchResult};
ghost use Rattle.words.specs.Spellings.{Spells, SpellsNone};
ghost use Rattle.words.specs.declared.LineFault.TheVariants.{Number};
ghost use Rattle.words.specs.declared.LineFault.TheVariants as line;

use records::commands::Command;
use records::numbers::{CommandNumber, Lots, Member, Price};
use std::fmt;
use std::str::FromStr;
use texts::lines::{NoSide, SideWord};

/// Why a line is no command.
#[derive(Clone, Copy)]
pub enum LineFault {
    /// It is longer than a line may be.
    TooLong,
    /// Its bytes are not UTF-8.
    NotText,
    /// Its first word is no command's.
    UnknownCommand,
    /// It has not the words that are named here.
    Form(&'static str),
    /// The word for what is named here is no number that fits.
    Number(&'static str),
    /// The side is neither buy nor sell.
    SideWord,
    /// A number is out of the range that is named here.
    Range(&'static str),
    /// All command numbers are spent.
    Spent,
}

impl fmt::Display for LineFault {
    fn fmt<W: fmt::Write>(&self, f: &mut fmt::Formatter<W>) -> fmt::Result {
        match *self {
            LineFault::TooLong => write!(f, "the line is longer than 255 bytes"),
            LineFault::NotText => write!(f, "the line is not text"),
            LineFault::UnknownCommand => write!(f, "the commands are enter, cancel and cross"),
            LineFault::Form(form) => write!(f, "write {form}"),
            LineFault::Number(what) => write!(f, "the {what} is not a number that fits"),
            LineFault::SideWord => write!(f, "the side is buy or sell"),
            LineFault::Range(range) => write!(f, "{range}"),
            LineFault::Spent => write!(f, "no command number is left"),
        }
    }
}

/// The word for what is named here is no number that fits.
#[derive(Clone, Copy, Debug)]
pub struct NoNumber(pub &'static str);

impl From<NoNumber> for LineFault {
    ghost from_gives = { λ n f. f ≡ Number n.0 };

    fn from(fault: NoNumber) -> LineFault {
        LineFault::Number(fault.0)
    }
}

impl From<NoSide> for LineFault {
    ghost from_gives = { λ _ f. f ≡ line.SideWord };

    fn from(_e: NoSide) -> LineFault {
        LineFault::SideWord
    }
}

/// The number that the text writes, which is to say what is named.
pub fn number<N: FromStr>(text: &str, what: &'static str) -> Result<N, NoNumber>
where
    N::Err: Drop,
    ensures { MatchResult result (λ n. N.from_str_gives text.now (Ok n)) (λ f. (f.0.now ≡ what.now) × ((e : N.Err) × N.from_str_gives text.now (Err e))) }
{
    text.parse().map_err(|_| NoNumber(what))
}

// The words after "enter".
fn enter_of(words: &[&str]) -> Result<Command, LineFault>
    ensures { MatchResult result (Spells (codes "enter" ∷ map (λ x. x.now) words.now)) (λ _. SpellsNone (codes "enter" ∷ map (λ x. x.now) words.now)) }
{
    let [member, side, price, lots] = words else {
        return Err(LineFault::Form("enter MEMBER buy|sell PRICE LOTS"));
    };
    Ok(Command::Enter {
        member: Member(number(member, "member")?),
        side: side.parse::<SideWord>()?.0,
        price: Price(number(price, "price")?),
        lots: Lots(number(lots, "number of lots")?),
    })
}

// The words after "cancel".
fn cancel_of(words: &[&str]) -> Result<Command, LineFault>
    ensures { MatchResult result (Spells (codes "cancel" ∷ map (λ x. x.now) words.now)) (λ _. SpellsNone (codes "cancel" ∷ map (λ x. x.now) words.now)) }
{
    let [member, order] = words else {
        return Err(LineFault::Form("cancel MEMBER ORDER"));
    };
    Ok(Command::Cancel {
        member: Member(number(member, "member")?),
        order: CommandNumber(number(order, "order")?),
    })
}

// The words after "cross".
fn cross_of(words: &[&str]) -> Result<Command, LineFault>
    ensures { MatchResult result (Spells (codes "cross" ∷ map (λ x. x.now) words.now)) (λ _. SpellsNone (codes "cross" ∷ map (λ x. x.now) words.now)) }
{
    match words {
        [] => Ok(Command::Cross),
        _ => Err(LineFault::Form("cross")),
    }
}

/// The command that the words spell, whether or not its numbers lie in their ranges; words that are refused spell none.
pub fn command_of(words: &[&str]) -> Result<Command, LineFault>
    ensures { MatchResult result (Spells (map (λ x. x.now) words.now)) (λ _. SpellsNone (map (λ x. x.now) words.now)) }
{
    match words {
        ["enter", words @ ..] => enter_of(words),
        ["cancel", words @ ..] => cancel_of(words),
        ["cross", words @ ..] => cross_of(words),
        _ => Err(LineFault::UnknownCommand),
    }
}
