//! The markets by the codes on their snapshots.
ghost use Rattle.std.specs.Prelude.{◌≡◌, MatchOption, Some};
ghost use Rattle.play_words.specs.Markets.{market_word};
ghost use Rattle.halls.specs.Codes.{code_of, NoMarketOf};

use play_words::script::MarketKind;
use std::fmt;

/// The market whose code this is.
pub fn market_of(code: u16) -> Option<MarketKind>
    ensures { MatchOption result (NoMarketOf code) (λ m. code_of m ≡ code) }
{
    match code {
        1 => Some(MarketKind::Book),
        2 => Some(MarketKind::Call),
        _ => None,
    }
}

/// A market by its name.
#[derive(Clone, Copy)]
pub struct MarketWord(pub MarketKind);

// Printing is a match.
impl fmt::Display for MarketWord {
    ghost output = { λ w. Some (market_word w.0) };

    fn fmt<W: fmt::Write>(&self, f: &mut fmt::Formatter<W>) -> fmt::Result {
        match self.0 {
            MarketKind::Book => write!(f, "book"),
            MarketKind::Call => write!(f, "call"),
        }
    }
}
