//! The snapshots of an image.
ghost use Rattle.std.specs.Prelude.{◌≡◌};
ghost use Rattle.journal.specs.Slots.{body_place};
ghost use Rattle.halls.specs.Bodies.{row_of_sectors};

use crate::faults::HallFault;
use crate::markets::{MarketWord, market_of};
use crate::sectors::{TORN, is_blank};
use book::shape::Continuous;
use call::shape::Crossing;
use image::sectors::find;
use jobs::matching::print_side;
use journal::slots::Slot;
use market::interface::Market;
use play_words::script::MarketKind;
use records::commands::Side;
use records::headers::Header;
use records::numbers::CommandNumber;
use ruled_market::rules::Rules;
use ruled_market::shape::RestingMarket;
use std::io;

// The body of a slot; none where a sector of it is torn.
fn read_body(image: &[u8], slot: Slot) -> Option<[u8; 1536]>
    ensures { result ≡ row_of_sectors image.now (body_place slot) 3 }
{
    let at = slot.body_sector();
    let mut body = [0; 1536];
    for i in 0..3 {
        let part = find(image, at + i)?;
        body[512 * i..512 * i + 512].copy_from_slice(&part);
    }
    Some(body)
}

// The orders of a body, where it loads in this market and is of the header's last command.
fn print_body<R: Rules>(
    rt: &HostRuntime,
    kind: MarketKind,
    body: &[u8; 1536],
    commands: CommandNumber,
) -> Result<(), HallFault> {
    let mut market: RestingMarket<R> = RestingMarket::new(rt.alloc())?;
    if let Err(reason) = market.load(body) {
        let reason = reason.number();
        println!(rt; "body: refused {reason}")?;
        return Ok(());
    }
    let (name, last, wanted) = (MarketWord(kind), market.last().0, commands.0);
    println!(rt; "body: {name}, last {last}")?;
    if last != wanted {
        println!(rt; "body: not of command {wanted}, the header's")?;
    }
    print_side(rt, Side::Buy, market.buys())?;
    print_side(rt, Side::Sell, market.sells())?;
    Ok(())
}

// A good header, and the body that it is of.
fn print_snapshot(
    rt: &HostRuntime,
    slot: Slot,
    header: &Header,
    body: Option<[u8; 1536]>,
) -> Result<(), HallFault> {
    let (slot, house, page) = (slot as u8, header.house.0, header.page.0);
    let (commands, notices) = (header.commands.0, header.notices.0);
    print!(rt;
        "slot {slot}: header of page {page}, {commands} commands, {notices} notices, house {house}"
    )?;
    let code = header.market;
    let Some(kind) = market_of(code) else {
        println!(rt; ", market code {code}, which is none's")?;
        return Ok(());
    };
    println!(rt; ", market {}", MarketWord(kind))?;
    let Some(body) = body else {
        println!(rt; "body: {TORN}")?;
        return Ok(());
    };
    match kind {
        MarketKind::Book => print_body::<Continuous>(rt, kind, &body, header.commands),
        MarketKind::Call => print_body::<Crossing>(rt, kind, &body, header.commands),
    }
}

// A slot without a good header.
fn print_none(rt: &HostRuntime, slot: Slot, why: &str) -> io::Result<()> {
    let slot = slot as u8;
    println!(rt; "slot {slot}: {why}")?;
    Ok(())
}

/// What a slot holds.
pub(crate) fn print_slot(rt: &HostRuntime, image: &[u8], slot: Slot) -> Result<(), HallFault> {
    let Some(sector) = find(image, slot.header_sector()) else {
        return Ok(print_none(rt, slot, TORN)?);
    };
    match Header::decode(&sector) {
        Some(header) => print_snapshot(rt, slot, &header, read_body(image, slot)),
        None if is_blank(&sector) => Ok(print_none(rt, slot, "no header")?),
        None => Ok(print_none(rt, slot, "not a header")?),
    }
}
