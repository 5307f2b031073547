//! Commands written as pages over a ring of sectors, and read back.
use crate::faults::JobFault;
use crate::reading::{NotTaken, Taker, range_fault, take_from};
use journal::layouts::Layout;
use records::commands::Command;
use records::numbers::{CommandNumber, HouseNumber, PageNumber};
use records::pages::batches::MOST_COMMANDS;
use records::pages::{Page, PageHead};
use std::alloc::{AllocError, Global};
use texts::lines::CommandLine;

/// The house number of the pages that are shown.
const HOUSE: HouseNumber = HouseNumber(1);

/// The sectors of a device in memory, and the commands that wait for the next page.
#[derive(Drop)]
struct Ring {
    layout: Layout,
    sectors: Vec<[u8; 512]>,
    staged: Vec<Command>,
    pages: PageNumber,
    commands: CommandNumber,
}

impl Ring {
    fn new(heap: Global, size: usize) -> Result<Ring, JobFault> {
        Ok(Ring {
            layout: Layout::new(size).ok_or(JobFault::Sectors)?,
            sectors: Vec::from_elem(heap, [0; 512], size)?,
            staged: Vec::with_capacity(heap, MOST_COMMANDS)?,
            pages: PageNumber(0),
            commands: CommandNumber(0),
        })
    }

    // Writes the commands that wait as the next page, in its sector.
    fn write_page(&mut self, rt: &HostRuntime) -> Result<(), JobFault> {
        let head = PageHead {
            house: HOUSE,
            number: PageNumber(self.pages.0.saturating_add(1)),
            first: CommandNumber(self.commands.0.saturating_add(1)),
        };
        let bytes = head
            .encode(self.staged.as_slice())
            .ok_or(JobFault::NumbersSpent)?;
        let count = self.staged.len();
        let place = self.layout.page_sector(head.number);
        let (number, first) = (head.number.0, head.first.0);
        println!(rt; "page {number} sector {place} first command {first} commands {count}")?;
        print_bytes(rt, &bytes)?;
        if let Some(sector) = self.sectors.get_mut(place) {
            *sector = bytes;
        }
        self.pages = head.number;
        self.commands.0 = self.commands.0.saturating_add(count as u64);
        self.staged.clear();
        Ok(())
    }
}

// The bytes of a sector, 32 a line; lines of zeros alone are left out.
fn print_bytes(rt: &HostRuntime, bytes: &[u8; 512]) -> Result<(), JobFault> {
    for (i, row) in bytes.chunks(32).enumerate() {
        if row.iter().any(|byte| *byte != 0) {
            let at = i.saturating_mul(32);
            print_row(rt, at, row)?;
        }
    }
    Ok(())
}

fn print_row(rt: &HostRuntime, at: usize, row: &[u8]) -> Result<(), JobFault> {
    print!(rt; "  {at:03}:")?;
    for byte in row {
        print!(rt; " {byte:02x}")?;
    }
    println!(rt; "")?;
    Ok(())
}

// The page that a sector holds, with its commands.
fn print_sector(rt: &HostRuntime, place: usize, sector: &[u8; 512]) -> Result<(), JobFault> {
    let Some(page) = Page::decode(sector) else {
        println!(rt; "sector {place} no page")?;
        return Ok(());
    };
    let (number, first) = (page.head.number.0, page.head.first.0);
    println!(rt; "sector {place} page {number} first command {first}")?;
    for (i, command) in page.commands.as_slice().iter().enumerate() {
        let number = CommandNumber(first + i as u64);
        let command = *command;
        println!(rt; "  {}", CommandLine { number, command })?;
    }
    Ok(())
}

impl Taker for Ring {
    fn take_command(&mut self, rt: &HostRuntime, command: Command) -> Result<(), NotTaken> {
        if !command.is_good() {
            return Err(range_fault(&command).into());
        }
        self.staged.push(command).map_err(AllocError::from)?;
        if self.staged.len() >= MOST_COMMANDS {
            self.write_page(rt)?;
        }
        Ok(())
    }
}

/// Writes the commands of the file of this name, or of standard input, as pages of up to 16 over a ring of sectors, and
/// reads every sector of the journal back.
pub fn page_orders(rt: &HostRuntime, size: usize, file: Option<&str>) -> Result<(), JobFault> {
    let mut ring = Ring::new(rt.alloc(), size)?;
    let refused = take_from(rt, file, &mut ring)?;
    if !ring.staged.is_empty() {
        ring.write_page(rt)?;
    }
    for (place, sector) in ring.sectors.iter().enumerate().skip(8) {
        print_sector(rt, place, sector)?;
    }
    let (pages, commands) = (ring.pages.0, ring.commands.0);
    println!(rt; "done: {pages} pages, {commands} commands, {refused} lines refused")?;
    Ok(())
}
