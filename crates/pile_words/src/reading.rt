//! Piles from words.
ghost use Rattle.std.specs.Prelude.{◌≡◌, [], ◌∷◌, map, IfErr, IfOk, MatchBool, MatchResult};
ghost use Rattle.pile_words.specs.Spellings.{SpellsBase, SpellsCuts, SpellsDrive, SpellsFuse, SpellsFuses, SpellsPart, SpellsPile, SpellsWhole, NextWrites, NoKind, Other, kind_word, still};
ghost use Rattle.pile_words.specs.declared.fault.PileFault.TheVariants.{Missing};

use crate::PileFault;
use crate::unread::Words;
use image::{Fuse, Plan};
use piles::{DriveKind, DriveShape, PartShape, PileShape, WholeShape};
use std::alloc::Global;
use words::number;

impl<'t> Words<'_, 't> {
    // Reads the next word, which is to say what is named.
    fn next(&mut self, what: &'static str) -> Result<&'t str, PileFault>
        ensures { MatchResult result (λ w. still self.old ≡ w.now ∷ still self.new) (λ f. (f ≡ Missing what.entry) × (still self.old ≡ [])) }
    {
        match self.left {
            [word, rest @ ..] => {
                self.left = rest;
                Ok(*word)
            }
            [] => Err(PileFault::Missing(what)),
        }
    }

    // Reads the next word as a number, which is to say what is named.
    fn number(&mut self, what: &'static str) -> Result<usize, PileFault>
        ensures { IfOk result (λ n. NextWrites (still self.old) n (still self.new)) }
    {
        Ok(number(self.next(what)?, what)?)
    }

    // Reads the next word where it is this one.
    fn take(&mut self, word: &str) -> bool
        ensures { MatchBool result (still self.old ≡ word.now ∷ still self.new) ((still self.new ≡ still self.old) × Other word.now (still self.old)) }
    {
        if let [next, rest @ ..] = self.left {
            if *next == word {
                self.left = rest;
                return true;
            }
        }
        false
    }
}

fn fuse_of(text: &str) -> Result<Fuse, PileFault>
    ensures { IfOk result (λ f. SpellsFuse text.now f) }
{
    let (count, plan) = text.split_once(':').ok_or(PileFault::NoCuts)?;
    let left = number(count, "the count of a cut")?;
    let bits = number(plan, "the plan of a cut")?;
    Ok(Fuse {
        left,
        plan: Plan { bits },
    })
}

// No FromStr: `offset` and `mirror`, which are no kinds of drive, get a refusal of their own, and a type around DriveKind would be
// made only to be taken apart.
fn kind_of(word: &str) -> Result<DriveKind, PileFault>
    ensures kind { IfOk result (λ k. word.now ≡ kind_word k) }
    ensures refused { IfErr result (NoKind word.now) }
{
    match word {
        "direct" => Ok(DriveKind::Direct),
        "writeback" => Ok(DriveKind::WriteBack),
        "offset" | "mirror" => Err(PileFault::TooDeep),
        _ => Err(PileFault::NoDevice),
    }
}

// One or more fuses, with commas between them.
fn fuses_of(heap: Global, text: &str) -> Result<Vec<Fuse>, PileFault>
    ensures { IfOk result (λ fs. SpellsFuses text.now fs.items) }
{
    let mut fuses = Vec::new(heap);
    for part in text.split(',') {
        fuses.push(fuse_of(part)?)?;
    }
    Ok(fuses)
}

fn cuts_of(heap: Global, words: &mut Words) -> Result<Vec<Fuse>, PileFault>
    ensures { IfOk result (λ fs. SpellsCuts (still words.old) fs.items (still words.new)) }
{
    if !words.take("cuts") {
        return Ok(Vec::new(heap));
    }
    let list = words.next("the list of cuts")?;
    fuses_of(heap, list)
}

fn drive_of(heap: Global, words: &mut Words) -> Result<DriveShape, PileFault>
    ensures { IfOk result (λ d. SpellsDrive (still words.old) d (still words.new)) }
{
    let kind = kind_of(words.next("a device")?)?;
    let sectors = words.number("the number of sectors")?;
    let fuses = cuts_of(heap, words)?;
    DriveShape::new(kind, sectors, fuses).ok_or(PileFault::TooLarge)
}

// The base of an offset, 0 where there is none.
fn base_of(words: &mut Words) -> Result<usize, PileFault>
    ensures { IfOk result (λ n. SpellsBase (still words.old) n (still words.new)) }
{
    if !words.take("offset") {
        return Ok(0);
    }
    words.number("the base of an offset")
}

fn part_of(heap: Global, words: &mut Words) -> Result<PartShape, PileFault>
    ensures { IfOk result (λ p. SpellsPart (still words.old) p (still words.new)) }
{
    let base = base_of(words)?;
    let drive = drive_of(heap, words)?;
    Ok(PartShape { base, drive })
}

fn whole_of(heap: Global, words: &mut Words) -> Result<WholeShape, PileFault>
    ensures { IfOk result (λ w. SpellsWhole (still words.old) w (still words.new)) }
{
    if !words.take("mirror") {
        return Ok(WholeShape::Part(part_of(heap, words)?));
    }
    let a = part_of(heap, words)?;
    let b = part_of(heap, words)?;
    Ok(WholeShape::Mirror(a, b))
}

/// The shape that the words spell, its devices from the top down: `direct N`, `writeback N`, `offset BASE PILE` or
/// `mirror PILE PILE`, and after a drive's N perhaps `cuts COUNT:PLAN,COUNT:PLAN,..`.
pub fn pile_of(heap: Global, words: &[&str]) -> Result<PileShape, PileFault>
    ensures { IfOk result (λ p. SpellsPile (map (λ x. x.now) words.now) p []) }
{
    let mut words = Words { left: words };
    let base = base_of(&mut words)?;
    let whole = whole_of(heap, &mut words)?;
    match words.left {
        [] => Ok(PileShape { base, whole }),
        [..] => Err(PileFault::LeftOver),
    }
}
