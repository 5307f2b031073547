//! A whole script.
ghost use Rattle.std.specs.Prelude.{◌≡◌, map, None, OnOk, MatchResult};
ghost use Rattle.play_words.specs.Markets.{market_word, NoMarketWord, AsksMarket};
ghost use Rattle.play_words.specs.Scripts.{Unfinished, SaysHouse, SaysMarket, SaysPile, SaysSetup, Calls, Took};
ghost use Rattle.play_words.specs.declared.script.Reader.TheVariants as reader;

use crate::calls::call_of;
use crate::faults::PlayFault;
use pile_words::pile_of;
use piles::PileShape;
use records::numbers::HouseNumber;
use runner::script::Call;
use std::alloc::Global;
use std::str::FromStr;
use words::number;

/// The markets that a script can name.
#[derive(Clone, Copy)]
pub enum MarketKind {
    Book,
    Call,
}

/// The word names no market.
#[derive(Clone, Copy, Debug)]
pub struct NoMarket;

impl FromStr for MarketKind {
    type Err = NoMarket;

    ghost from_str_gives = { λ word r. MatchResult r (λ m. word ≡ market_word m) (λ _. NoMarketWord word) };

    fn from_str(word: &str) -> Result<MarketKind, NoMarket> {
        match word {
            "book" => Ok(MarketKind::Book),
            "call" => Ok(MarketKind::Call),
            _ => Err(NoMarket),
        }
    }
}

impl From<NoMarket> for PlayFault {
    ghost from_gives = { λ _ f. AsksMarket f };

    fn from(_e: NoMarket) -> PlayFault {
        PlayFault::Form("market book|call")
    }
}

/// A script: what is set up, and the calls.
#[derive(Drop)]
pub struct Script {
    pub house: HouseNumber,
    pub market: MarketKind,
    pub pile: PileShape,
    pub calls: Vec<Call>,
}

/// What was read of a script so far.
#[derive(Drop)]
pub enum Reader {
    /// What is set up is being said.
    Setup {
        house: Option<HouseNumber>,
        market: Option<MarketKind>,
        pile: Option<PileShape>,
    },
    /// `setup` has come, and calls follow.
    Calls(Script),
}

// That what is named was not said before.
fn unsaid<T>(slot: &Option<T>, what: &'static str) -> Result<(), PlayFault>
    ensures { MatchResult result (λ _. slot.now ≡ None) (λ _. slot.now ≡ None → ⊥) }
{
    match slot {
        None => Ok(()),
        Some(_) => Err(PlayFault::Twice(what)),
    }
}

impl Reader {
    /// Nothing is read yet.
    pub fn new() -> Reader
        ensures { result ≡ reader.Setup None None None }
    {
        Reader::Setup {
            house: None,
            market: None,
            pile: None,
        }
    }

    fn take_house(&mut self, word: &str) -> Result<(), PlayFault>
        ensures { OnOk result (SaysHouse word.now self.old self.new) }
    {
        let Reader::Setup { house, .. } = self else {
            return Err(PlayFault::Twice("house"));
        };
        unsaid(house, "house")?;
        *house = Some(HouseNumber(number(word, "house")?));
        Ok(())
    }

    fn take_market(&mut self, word: &str) -> Result<(), PlayFault>
        ensures { OnOk result (SaysMarket word.now self.old self.new) }
    {
        let Reader::Setup { market, .. } = self else {
            return Err(PlayFault::Twice("market"));
        };
        unsaid(market, "market")?;
        *market = Some(word.parse()?);
        Ok(())
    }

    fn take_pile(&mut self, heap: Global, words: &[&str]) -> Result<(), PlayFault>
        ensures { OnOk result (SaysPile (map (λ x. x.now) words.now) self.old self.new) }
    {
        let Reader::Setup { pile, .. } = self else {
            return Err(PlayFault::Twice("device"));
        };
        unsaid(pile, "device")?;
        *pile = Some(pile_of(heap, words)?);
        Ok(())
    }

    fn take_setup(&mut self, heap: Global) -> Result<(), PlayFault>
        ensures { OnOk result (SaysSetup self.old self.new) }
    {
        let Reader::Setup {
            house,
            market,
            pile,
        } = self
        else {
            return Err(PlayFault::Twice("setup"));
        };
        let house = house.ok_or(PlayFault::Missing("house"))?;
        let market = market.ok_or(PlayFault::Missing("market"))?;
        let pile = pile.take().ok_or(PlayFault::Missing("device"))?;
        *self = Reader::Calls(Script {
            house,
            market,
            pile,
            calls: Vec::new(heap),
        });
        Ok(())
    }

    fn take_call(&mut self, heap: Global, words: &[&str]) -> Result<(), PlayFault>
        ensures { OnOk result (Calls (map (λ x. x.now) words.now) self.old self.new) }
    {
        let call = call_of(heap, words)?;
        let Reader::Calls(Script { calls, .. }) = self else {
            return Err(PlayFault::Early);
        };
        Ok(calls.push(call)?)
    }

    /// Takes the words of the next line, of which there is one at least.
    pub fn take(&mut self, heap: Global, words: &[&str]) -> Result<(), PlayFault>
        ensures { OnOk result (Took (map (λ x. x.now) words.now) self.old self.new) }
    {
        match words {
            ["house", word] => self.take_house(word),
            ["house", ..] => Err(PlayFault::Form("house NUMBER")),
            ["market", word] => self.take_market(word),
            ["market", ..] => Err(PlayFault::Form("market book|call")),
            ["device", words @ ..] => self.take_pile(heap, words),
            ["setup"] => self.take_setup(heap),
            ["setup", ..] => Err(PlayFault::Form("setup")),
            _ => self.take_call(heap, words),
        }
    }

    /// The script, at its end.
    pub fn finish(self) -> Result<Script, PlayFault>
        ensures { MatchResult result (λ s. self ≡ reader.Calls s) (λ _. Unfinished self) }
    {
        match self {
            Reader::Calls(script) => Ok(script),
            Reader::Setup { .. } => Err(PlayFault::NoSetup),
        }
    }
}
