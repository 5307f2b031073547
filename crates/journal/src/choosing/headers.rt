ghost use Rattle.std.specs.Prelude.{◌≡◌};
ghost use Rattle.rank.specs.Ranked.{high_first};
ghost use Rattle.journal.specs.Choices.{is_own, own_header_in, OwnHeader, header_key, first_of, FirstIsFirst, chosen};

use super::{Chosen, Latest, SlotHeader};
use crate::slots::Slot;
use market::interface::Market;
use rank::first_in_rank;
use records::headers::Header;
use records::numbers::HouseNumber;

// Whether a header has this house number and this market's code.
fn is_of(header: &Header, house: HouseNumber, code: u16) -> bool
    ensures { result ≡ is_own house code header.now }
{
    header.house == house && header.market == code
}

/// The good header of this house and this market whose sector this is.
pub fn own_header<M: Market>(sector: &[u8; 512], house: HouseNumber) -> Option<Header>
    ensures value { result ≡ own_header_in house M.Market.CODE sector.now }
    ensures exact { OwnHeader house M.Market.CODE sector.now result }
{
    let header = Header::decode(sector)?;
    if is_of(&header, house, M::CODE) {
        Some(header)
    } else {
        None
    }
}

// Whether the second of two stands first in rank.
fn is_second_first(x: SlotHeader, y: SlotHeader) -> bool
    ensures { result ≡ high_first (header_key y) (header_key x) }
{
    first_in_rank(&Latest, &[x, y]) == Some(1)
}

// Of the good headers of two slots the one that stands first in rank.
fn first_of(zero: Option<Header>, one: Option<Header>) -> Option<SlotHeader>
    ensures { result ≡ first_of zero one }
{
    let zero = zero.map(|header| SlotHeader {
        slot: Slot::Zero,
        header,
    });
    let one = one.map(|header| SlotHeader {
        slot: Slot::One,
        header,
    });
    match (zero, one) {
        (Some(x), Some(y)) => Some(if is_second_first(x, y) { y } else { x }),
        (x, y) => x.or(y),
    }
}

/// Of the header sectors of both slots the one that stands first in rank among the good ones of
/// this house and this market.
pub fn first_header<'a, M: Market>(
    zero: &'a [u8; 512],
    one: &'a [u8; 512],
    house: HouseNumber,
) -> Option<Chosen<'a>>
    ensures place { result ≡ chosen zero.entry one.entry (first_of (own_header_in house M.Market.CODE zero.now) (own_header_in house M.Market.CODE one.now)) }
    ensures rank { FirstIsFirst }
{
    let first = first_of(own_header::<M>(zero, house), own_header::<M>(one, house))?;
    let sector = match first.slot {
        Slot::Zero => zero,
        Slot::One => one,
    };
    Some(Chosen { first, sector })
}
