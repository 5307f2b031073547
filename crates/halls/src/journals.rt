//! The journal of an image.
use crate::markets::MarketWord;
use crate::openings::Opening;
use crate::sectors::{TORN, is_blank};
use crate::stands::stand_of;
use device::Sector;
use image::sectors::find;
use journal::layouts::Layout;
use records::numbers::CommandNumber;
use records::pages::{Page, PageHead};
use std::io;
use texts::lines::CommandLine;

// What one opening makes of a sector, which may hold a page with this head.
fn print_stand(
    rt: &HostRuntime,
    layout: &Layout,
    opening: &Opening,
    sector: usize,
    head: Option<&PageHead>,
) -> io::Result<()> {
    if opening.course.ends_at(sector) {
        print!(rt; "the opening is refused here")?;
        return Ok(());
    }
    match head {
        Some(head) => {
            let stand = stand_of(&opening.course, opening.owner.house, layout, sector, head);
            print!(rt; "{stand}")?;
        }
        None => print!(rt; "not replayed")?,
    }
    Ok(())
}

// What each opening makes of a sector. Its house and market are named where there are two.
fn print_stands(
    rt: &HostRuntime,
    layout: &Layout,
    openings: &[Opening],
    sector: usize,
    head: Option<&PageHead>,
) -> io::Result<()> {
    for opening in openings {
        if openings.len() > 1 {
            let (house, market) = (opening.owner.house.0, MarketWord(opening.market));
            print!(rt; "; to house {house}, market {market}")?;
        }
        print!(rt; ": ")?;
        print_stand(rt, layout, opening, sector, head)?;
    }
    println!(rt; "")?;
    Ok(())
}

fn print_commands(rt: &HostRuntime, page: &Page) -> io::Result<()> {
    for (number, command) in (page.head.first.0..).zip(page.commands.as_slice()) {
        let (number, command) = (CommandNumber(number), *command);
        println!(rt; "{}", CommandLine { number, command })?;
    }
    Ok(())
}

// A sector that is not blank; a page has its commands under it.
fn print_sector(
    rt: &HostRuntime,
    layout: &Layout,
    openings: &[Opening],
    place: usize,
    sector: &Sector,
) -> io::Result<()> {
    let Some(page) = Page::decode(sector) else {
        print!(rt; "sector {place}: not a page")?;
        return print_stands(rt, layout, openings, place, None);
    };
    let (number, house, first) = (page.head.number.0, page.head.house.0, page.head.first.0);
    let count = page.commands.len();
    print!(rt;
        "sector {place}: page {number}, house {house}, first command {first}, {count} commands"
    )?;
    print_stands(rt, layout, openings, place, Some(&page.head))?;
    print_commands(rt, &page)
}

/// The sectors of the journal that are not blank, which begin at sector 8, and what each opening makes of them.
pub(crate) fn print_journal(
    rt: &HostRuntime,
    image: &[u8],
    layout: &Layout,
    openings: &[Opening],
) -> io::Result<()> {
    for place in 8..layout.journal().saturating_add(8) {
        match find(image, place) {
            None => println!(rt; "sector {place}: {TORN}")?,
            Some(sector) if is_blank(&sector) => {}
            Some(sector) => print_sector(rt, layout, openings, place, &sector)?,
        }
    }
    Ok(())
}
