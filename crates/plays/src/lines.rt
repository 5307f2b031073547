//! The words of calls and answers.
ghost use Rattle.std.specs.Prelude.{Some};
ghost use Rattle.plays.specs.Texts.{command_words, refusal_text, ticket_text, receipt_text, phase_word};

use protocol::faults::ExchangeFault;
use protocol::phases::Phase;
use protocol::tokens::{ReceiptNumbers, TicketNumbers};
use records::commands::Command;
use std::fmt;
use texts::lines::SideWord;

/// A command as a script has it.
#[derive(Clone, Copy)]
pub struct CommandWords(pub Command);

// Printing is a match.
impl fmt::Display for CommandWords {
    ghost output = { λ c. Some (command_words c.0) };

    fn fmt<W: fmt::Write>(&self, f: &mut fmt::Formatter<W>) -> fmt::Result {
        match self.0 {
            Command::Enter {
                member,
                side,
                price,
                lots,
            } => {
                let (member, side, price, lots) = (member.0, SideWord(side), price.0, lots.0);
                write!(f, "enter {member} {side} {price} {lots}")
            }
            Command::Cancel { member, order } => {
                let (member, order) = (member.0, order.0);
                write!(f, "cancel {member} {order}")
            }
            Command::Cross => write!(f, "cross"),
        }
    }
}

/// Why a call was refused.
#[derive(Clone, Copy)]
pub struct RefusalWords(pub ExchangeFault);

impl fmt::Display for RefusalWords {
    ghost output = { λ w. Some (refusal_text w.0) };

    fn fmt<W: fmt::Write>(&self, f: &mut fmt::Formatter<W>) -> fmt::Result {
        let RefusalWords(fault) = *self;
        let (reason, own) = (fault.reason.number(), fault.origin.own_fault());
        let (sector, layer) = (fault.origin.sector(), fault.origin.layer());
        write!(
            f,
            "refused {reason} fault {own} sector {sector} layer {layer}"
        )
    }
}

/// What a ticket says.
#[derive(Clone, Copy)]
pub struct TicketWords(pub TicketNumbers);

impl fmt::Display for TicketWords {
    ghost output = { λ t. Some (ticket_text t.0) };

    fn fmt<W: fmt::Write>(&self, f: &mut fmt::Formatter<W>) -> fmt::Result {
        let (house, page) = (self.0.house.0, self.0.page.0);
        write!(f, "house {house} page {page}")
    }
}

/// What a receipt says.
#[derive(Clone, Copy)]
pub struct ReceiptWords(pub ReceiptNumbers);

impl fmt::Display for ReceiptWords {
    ghost output = { λ r. Some (receipt_text r.0) };

    fn fmt<W: fmt::Write>(&self, f: &mut fmt::Formatter<W>) -> fmt::Result {
        let (house, page, first) = (self.0.house.0, self.0.page.0, self.0.first.0);
        let (commands, notice, notices) = (self.0.commands, self.0.notice.0, self.0.notices);
        write!(
            f,
            "house {house} page {page} first {first} commands {commands} notice {notice} notices {notices}"
        )
    }
}

/// A phase by its name.
#[derive(Clone, Copy)]
pub struct PhaseWord(pub Phase);

// Printing is a match.
impl fmt::Display for PhaseWord {
    ghost output = { λ p. Some (phase_word p.0) };

    fn fmt<W: fmt::Write>(&self, f: &mut fmt::Formatter<W>) -> fmt::Result {
        match self.0 {
            Phase::Live => write!(f, "live"),
            Phase::Written => write!(f, "written"),
            Phase::Dark => write!(f, "dark"),
            Phase::Replaying => write!(f, "replaying"),
        }
    }
}
