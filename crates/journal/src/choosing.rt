//! Which of two snapshots is taken.
ghost use Rattle.std.specs.Prelude.{ℕ};
ghost use Rattle.rank.specs.Ranked.{high_first};
ghost use Rattle.journal.specs.Choices.{header_key};
ghost use Rattle.rank.proofs.Pairs.{high_first_chains, high_first_irreflexive, high_first_total};

use crate::slots::Slot;
use rank::Ranking;
use records::headers::Header;
use std::cmp::Reverse;

mod headers;

pub use headers::{first_header, own_header};

/// A good header and the slot that it lies in.
#[derive(Clone, Copy)]
pub struct SlotHeader {
    pub slot: Slot,
    pub header: Header,
}

/// The header that was chosen, and the lent sector that it was read from.
#[derive(Clone, Copy)]
pub struct Chosen<'a> {
    pub first: SlotHeader,
    pub sector: &'a [u8; 512],
}

/// The ranking of headers: higher page, then lower slot.
pub struct Latest;

impl Ranking<SlotHeader> for Latest {
    ghost Key = { ℕ × ℕ };

    ghost key = { header_key };

    ghost earlier = { λ _. high_first };

    ghost irreflexive = { λ _. high_first_irreflexive };

    ghost chains = { λ _. high_first_chains };

    ghost total = { λ _. high_first_total };

    fn stands_before(&self, x: &SlotHeader, y: &SlotHeader) -> bool {
        (Reverse(x.header.page), x.slot) < (Reverse(y.header.page), y.slot)
    }
}
