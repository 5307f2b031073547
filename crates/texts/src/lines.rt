//! The lines that tell what was done.
ghost use Rattle.std.specs.Prelude.{◌≡◌, Some, MatchResult};
ghost use Rattle.texts.specs.Texts.{side_word, NoSideWord, command_text, told_text, notice_text, order_text};

use market::orders::Order;
use records::commands::{Command, Side};
use records::notices::{Kind, Notice};
use records::numbers::CommandNumber;
use std::fmt;
use std::str::FromStr;

/// A side as it is printed, and read.
#[derive(Clone, Copy)]
pub struct SideWord(pub Side);

// Printing is a match.
impl fmt::Display for SideWord {
    ghost output = { λ s. Some (side_word s.0) };

    fn fmt<W: fmt::Write>(&self, f: &mut fmt::Formatter<W>) -> fmt::Result {
        match self.0 {
            Side::Buy => write!(f, "buy"),
            Side::Sell => write!(f, "sell"),
        }
    }
}

/// The word names no side.
#[derive(Clone, Copy, Debug)]
pub struct NoSide;

impl FromStr for SideWord {
    type Err = NoSide;

    ghost from_str_gives = { λ word r. MatchResult r (λ s. word ≡ side_word s.0) (λ _. NoSideWord word) };

    fn from_str(word: &str) -> Result<SideWord, NoSide> {
        match word {
            "buy" => Ok(SideWord(Side::Buy)),
            "sell" => Ok(SideWord(Side::Sell)),
            _ => Err(NoSide),
        }
    }
}

/// A command that was taken.
#[derive(Clone, Copy)]
pub struct CommandLine {
    pub number: CommandNumber,
    pub command: Command,
}

impl fmt::Display for CommandLine {
    ghost output = { λ l. Some (command_text l.number.0 l.command) };

    fn fmt<W: fmt::Write>(&self, f: &mut fmt::Formatter<W>) -> fmt::Result {
        let number = self.number.0;
        match self.command {
            Command::Enter {
                member,
                side,
                price,
                lots,
            } => {
                let (member, side, price, lots) = (member.0, SideWord(side), price.0, lots.0);
                write!(
                    f,
                    "command {number} enter member {member} {side} {price} lots {lots}"
                )
            }
            Command::Cancel { member, order } => {
                let (member, order) = (member.0, order.0);
                write!(f, "command {number} cancel member {member} order {order}")
            }
            Command::Cross => write!(f, "command {number} cross"),
        }
    }
}

/// What a notice tells of its order or orders.
#[derive(Clone, Copy)]
pub struct Told(pub Notice);

impl fmt::Display for Told {
    ghost output = { λ t. Some (told_text t.0.kind t.0) };

    fn fmt<W: fmt::Write>(&self, f: &mut fmt::Formatter<W>) -> fmt::Result {
        let Told(notice) = *self;
        let (order, member) = (notice.a.order.0, notice.a.member.0);
        let lots = notice.lots.0;
        match notice.kind {
            Kind::Fill => {
                let (sell, seller, price) = (notice.b.order.0, notice.b.member.0, notice.price.0);
                write!(
                    f,
                    " fill buy {order} member {member} sell {sell} member {seller} price {price} lots {lots}"
                )
            }
            Kind::Dropped => write!(f, " dropped order {order} member {member} lots {lots}"),
            Kind::Cancelled => write!(f, " cancelled order {order} member {member} lots {lots}"),
        }
    }
}

/// A notice, under its number.
#[derive(Clone, Copy)]
pub struct NoticeLine(pub Notice);

impl fmt::Display for NoticeLine {
    ghost output = { λ l. Some (notice_text l.0) };

    fn fmt<W: fmt::Write>(&self, f: &mut fmt::Formatter<W>) -> fmt::Result {
        let (number, command) = (self.0.number.0, self.0.command.0);
        let told = Told(self.0);
        write!(f, "notice {number} command {command}{told}")
    }
}

/// An order that rests.
#[derive(Clone, Copy)]
pub struct OrderLine {
    pub side: Side,
    pub order: Order,
}

impl fmt::Display for OrderLine {
    ghost output = { λ l. Some (order_text l.side l.order) };

    fn fmt<W: fmt::Write>(&self, f: &mut fmt::Formatter<W>) -> fmt::Result {
        let side = SideWord(self.side);
        let (number, member) = (self.order.number.0, self.order.member.0);
        let (price, lots) = (self.order.price.0, self.order.lots.0);
        write!(
            f,
            "{side} {number} member {member} price {price} lots {lots}"
        )
    }
}
