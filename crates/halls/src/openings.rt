//! What an opening makes of an image.
ghost use Rattle.std.specs.Prelude.{◌≡◌, IfOk};
ghost use Rattle.image.specs.Image.{bytes_of, seen};
ghost use Rattle.journal.specs.Slots.{header_place};
ghost use Rattle.halls.specs.Codes.{code_of};
ghost use Rattle.halls.specs.Openings.{taken_slot, bytes_or_zeros, OpenedAs};

use crate::courses::{Course, replay_all};
use crate::faults::HallFault;
use crate::markets::{MarketWord, market_of};
use crate::owners::{Owner, owners_of};
use book::shape::Continuous;
use call::shape::Crossing;
use device::Sector;
use drives::{Direct, Drive};
use exchange::making::Status;
use exchange::state::Exchange;
use image::sectors::find;
use jobs::matching::print_side;
use journal::choosing::first_header;
use journal::slots::Slot;
use market::interface::Market;
use market::orders::Order;
use play_words::script::MarketKind;
use plays::lines::{PhaseWord, RefusalWords};
use records::commands::Side;
use records::numbers::HouseNumber;
use ruled_market::rules::Rules;
use ruled_market::shape::RestingMarket;
use std::alloc::{AllocError, Global};
use std::io;

/// What an opening by an owner came to.
#[derive(Drop)]
pub(crate) struct Opening {
    pub(crate) owner: Owner,
    pub(crate) course: Course,
    pub(crate) market: MarketKind,
    slot: Option<Slot>,
    status: Status,
    buys: Vec<Order>,
    sells: Vec<Order>,
}

// Which slot an exchange of this house, and of the market of these rules, takes as it opens.
fn taken<R: Rules>(zero: &Sector, one: &Sector, house: HouseNumber) -> Option<Slot>
    ensures { result ≡ taken_slot house R.CODE zero.now one.now }
{
    let chosen = first_header::<RestingMarket<R>>(zero, one, house)?;
    Some(chosen.first.slot)
}

// The sector of a slot's header; zeros, which are no header, where it is torn.
fn header_sector(image: &[u8], slot: Slot) -> Sector
    ensures { result ≡ bytes_or_zeros (bytes_of (seen image.now (header_place slot))) }
{
    match find(image, slot.header_sector()) {
        Some(sector) => sector,
        None => [0; 512],
    }
}

// Opens an exchange of the market of these rules on the image.
fn open_in<R: Rules>(
    heap: Global,
    image: &mut [u8],
    owner: Owner,
    market: MarketKind,
) -> Result<Opening, AllocError>
    ensures { IfOk result (OpenedAs image.old owner market R.CODE) }
{
    let zero = header_sector(image, Slot::Zero);
    let one = header_sector(image, Slot::One);
    let slot = taken::<R>(&zero, &one, owner.house);
    let mut exchange: Exchange<RestingMarket<R>, Direct<'_>> = Exchange::new(
        heap,
        owner.house,
        Drive::direct(image),
    )?;
    let course = match exchange.open() {
        Ok(page) => replay_all(heap, &mut exchange, page)?,
        Err(fault) => Course::refused(fault),
    };
    Ok(Opening {
        owner,
        course,
        market,
        slot,
        status: exchange.status(),
        buys: Vec::from_slice(heap, exchange.market().buys())?,
        sells: Vec::from_slice(heap, exchange.market().sells())?,
    })
}

// Opens an exchange of this owner on the image, which replays all the pages that it can.
fn open_as(
    heap: Global,
    image: &mut [u8],
    owner: Owner,
    market: MarketKind,
) -> Result<Opening, AllocError>
    ensures { IfOk result (OpenedAs image.old owner market (code_of market)) }
{
    match market {
        MarketKind::Book => open_in::<Continuous>(heap, image, owner, market),
        MarketKind::Call => open_in::<Crossing>(heap, image, owner, market),
    }
}

/// What an opening makes of the image, by each house and market of its snapshots; a code that is no market's is passed over.
pub(crate) fn open_all(heap: Global, image: &mut [u8]) -> Result<Vec<Opening>, AllocError> {
    let owners = owners_of(heap, image)?;
    let mut openings = Vec::new(heap);
    for owner in owners.iter() {
        if let Some(market) = market_of(owner.code) {
            openings
                .push(open_as(heap, image, *owner, market)?)
                .map_err(AllocError::from)?;
        }
    }
    Ok(openings)
}

// The numbers of an exchange that is open, and the orders that rest.
fn print_end(rt: &HostRuntime, opening: &Opening) -> io::Result<()> {
    let status = opening.status;
    let (pages, commands, notices) = (status.pages.0, status.commands.0, status.notices.0);
    println!(rt; "pages {pages} commands {commands} notices {notices}")?;
    print_side(rt, Side::Buy, &opening.buys)?;
    print_side(rt, Side::Sell, &opening.sells)
}

// Which pages are replayed.
fn print_replayed(rt: &HostRuntime, course: Course) -> io::Result<()> {
    let (first, last) = (course.covered.0.saturating_add(1), course.last.0);
    if first > last {
        print!(rt; "replays no page")?;
    } else if first == last {
        print!(rt; "replays page {last}")?;
    } else {
        print!(rt; "replays pages {first} to {last}")?;
    }
    Ok(())
}

/// What an opening does, and what it comes to.
pub(crate) fn print_opening(rt: &HostRuntime, opening: &Opening) -> Result<(), HallFault> {
    let (house, market) = (opening.owner.house.0, MarketWord(opening.market));
    print!(rt; "an opening of house {house}, market {market}, takes ")?;
    match opening.slot {
        Some(slot) => print!(rt; "slot {}, ", slot as u8)?,
        None => print!(rt; "no slot, ")?,
    }
    print_replayed(rt, opening.course)?;
    match opening.course.fault {
        Some(fault) => println!(rt; " and is then {}", RefusalWords(fault))?,
        None => {
            println!(rt; " and is then {}", PhaseWord(opening.status.phase))?;
            print_end(rt, opening)?;
        }
    }
    Ok(())
}
