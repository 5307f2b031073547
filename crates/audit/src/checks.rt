//! What a record's book tells of a log.
ghost use Rattle.std.specs.Prelude.{Decides, MatchBool, MatchOption};
ghost use Rattle.std.specs.List.{All, Contains};
ghost use Rattle.runner.specs.declared.log.HandedOut.{HandedOut as Handing};
ghost use Rattle.audit.specs.Checks.{PageServed, PagesServed, Same};

use crate::handing::{has_from, is_same};
use records::notices::Notice;
use runner::log::HandedOut;

/// An opening: the highest delivered notice before it, and how many notices had come with receipts.
#[derive(Clone, Copy)]
pub(crate) struct Opening {
    pub(crate) above: u128,
    pub(crate) from: usize,
}

// Whether every notice of a page that is above the highest delivered was handed out since the opening.
#[tactic(auto, unfolding(crate::specs::Checks::PageServed))]
fn is_page_served(page: &HandedOut, handed: &[Notice], opening: &Opening) -> bool
    ensures { Decides result (PageServed handed.now opening.now page.now) }
{
    page.notices.iter().all(|notice| {
        u128::from(notice.number.0) <= opening.above || has_from(handed, opening.from, notice)
    })
}

// Whether those of all pages were.
#[tactic(auto, unfolding(crate::specs::Checks::PagesServed))]
fn is_served(pages: &[HandedOut], handed: &[Notice], opening: &Opening) -> bool
    ensures { Decides result (PagesServed pages.now handed.now opening.now) }
{
    pages
        .iter()
        .all(|page| is_page_served(page, handed, opening))
}

/// Whether all openings have handed out what was awaited of these pages.
pub(crate) fn are_served(pages: &[HandedOut], handed: &[Notice], openings: &[Opening]) -> bool
    ensures { Decides result (All (PagesServed pages.now handed.now) openings.now) }
{
    openings
        .iter()
        .all(|opening| is_served(pages, handed, opening))
}

// A page that is answered so.
fn answer_like<'a>(pages: &'a [HandedOut], handed: &HandedOut) -> Option<&'a HandedOut>
    ensures { MatchOption result (All (λ p. Same p handed.now → ⊥) pages.now) (λ p. Contains pages.now p.now × Same p.now handed.now) }
{
    pages.iter().find(|page| is_same(page, handed))
}

/// Whether one of the pages is answered so.
pub(crate) fn has_answer(pages: &[HandedOut], handed: &HandedOut) -> bool
    ensures { MatchBool result ((p : Handing) × Contains pages.now p × Same p handed.now) (All (λ p. Same p handed.now → ⊥) pages.now) }
{
    match answer_like(pages, handed) {
        Some(_) => true,
        None => false,
    }
}
