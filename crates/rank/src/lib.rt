//! Rankings: which of two elements stands before the other, and the first of many, in one text for
//! every type of element and every ranking that keeps the law.
//!
//! Proved: `first_in_rank` answers none of an empty slice, else the place of an element that none
//! stands before, and no other element that differs from it in a ranked field is so.
//! Trusted: the toolchain.
#![tactic(auto)]

ghost use Rattle.std.specs.Prelude.{◌≡◌, ℕ, length, MatchOption};
ghost use Rattle.rank.specs.Ranked.{First};

mod ranking;

pub use ranking::Ranking;

/// Where the first in rank of `xs` stands.
pub fn first_in_rank<R: Ranking<T>, T>(ranking: &R, xs: &[T]) -> Option<usize>
    ensures { MatchOption result (length xs.now ≡ 0) (First (R.earlier ranking.now) R.key xs.now) }
{
    if xs.is_empty() {
        return None;
    }
    let mut best = 0;
    for (i, x) in xs.iter().enumerate() {
        if ranking.stands_before(x, &xs[best]) {
            best = i;
        }
    }
    Some(best)
}
