//! Pages: as bytes, and read back.
ghost use Rattle.std.specs.Prelude.{◌≡◌, ◌<◌, true, length};
ghost use Rattle.records.specs.Pages.{page_of, page_sector_bytes, numbers_good, all_good};
ghost use Rattle.journal_io.specs.Paging.{PageFound};
ghost use Rattle.journal_io.specs.Running.{Running, page_writes};

use crate::reading::read_sector;
use crate::writing::perform_all;
use device::run::Operation;
use device::{Device, Sector};
use journal::layouts::Layout;
use protocol::faults::JournalFault;
use records::commands::Command;
use records::pages::{Page, PageHead, looks_for};

// The sector's bytes of a good page.
fn page_bytes(head: PageHead, commands: &[Command]) -> Sector
    requires numbers { numbers_good head (length commands.now) ≡ true }
    requires good { all_good commands.now ≡ true }
    ensures { result ≡ page_sector_bytes (page_of head commands.now) }
{
    head.encode(commands).unwrap()
}

/// Writes a page to its sector.
pub fn put_page<D: Device>(
    device: &mut D,
    layout: &Layout,
    head: PageHead,
    commands: &[Command],
) -> Result<(), JournalFault>
    requires numbers { numbers_good head (length commands.now) ≡ true }
    requires good { all_good commands.now ≡ true }
    ensures did { Running (D.meaning device.old) (page_writes layout.now.size head commands.now) result (D.meaning device.new) }
    ensures kept { D.lender device.new ≡ D.lender device.old }
{
    let bytes = page_bytes(head, commands);
    perform_all(
        device,
        &[Operation::Write(layout.page_sector(head.number), bytes)],
    )
}

/// The page with this head, from its sector; none where the sector is torn or is not that page's.
pub fn read_page<D: Device>(
    device: &mut D,
    sector: usize,
    head: PageHead,
) -> Result<Option<Page>, JournalFault>
    requires { sector < (D.meaning device.old).size }
    ensures did { PageFound (D.meaning device.old) sector head result (D.meaning device.new) }
    ensures kept { D.lender device.new ≡ D.lender device.old }
{
    let Some(bytes) = read_sector(device, sector)? else {
        return Ok(None);
    };
    if !looks_for(&bytes, head.house, head.number) {
        return Ok(None);
    }
    match Page::decode(&bytes) {
        Some(page) if page.head.first == head.first => Ok(Some(page)),
        _ => Err(JournalFault::BadPage(sector)),
    }
}
