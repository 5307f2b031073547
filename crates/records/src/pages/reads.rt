ghost use Rattle.std.specs.Prelude.{◌≡◌, ◌≤◌, length, IfSome};
ghost use Rattle.records.specs.Commands.{encoded};
ghost use Rattle.records.specs.Pages.{first_in_bytes, commands_in_bytes, laid_out, head_in, decoded_page, held_in, said, bytes_look_for, Looks, DecodedPage, ZerosLookLikeNone};

use super::batches::Batch;
use super::writes::record_size;
use super::{Page, PageHead};
use crate::commands::Command;
use crate::commands::codes::command_in;
use crate::kinds::RecordKind;
use crate::little_endian::LittleEndian;
use crate::numbers::{CommandNumber, HouseNumber, PageNumber};
use crate::sectors::all_zero_from;

// The command whose record `bytes` begin with.
fn first_in(bytes: &[u8]) -> Option<Command>
    ensures value { result ≡ first_in_bytes bytes.now }
    ensures bound { IfSome result (λ c. length (encoded c) ≤ length bytes.now) }
{
    if bytes.len() < 4 {
        return None;
    }
    let n = u16::take(bytes, 0) as usize;
    if n > bytes.len() {
        return None;
    }
    command_in(&bytes[0..n])
}

// The `count` commands whose records `bytes` are.
fn commands_in(bytes: &[u8], count: u16) -> Option<Batch>
    requires { count ≤ 16 }
    ensures { commands_in_bytes count bytes.now ≡ held_in result }
{
    let mut commands = Batch::new();
    let mut rest = bytes;
    for _ in 0..count {
        let command = first_in(rest)?;
        let n = record_size(&command) as usize;
        commands.push(command);
        rest = &rest[n..];
    }
    rest.is_empty().then_some(commands)
}

// Whether the length, the kind and the two zero bytes are those of a page. (No one text with the header's: the lengths are
// tested in two ways, and what is left is two comparisons.)
fn is_laid_out(sector: &[u8; 512]) -> bool
    ensures { result ≡ laid_out sector.now }
{
    let total = u16::take(sector, 0);
    let kind = u16::take(sector, 2);
    let blank = u16::take(sector, 26);
    (28..=512).contains(&total) && kind == RecordKind::Page as u16 && blank == 0
}

// The numbers where a head has them.
fn head_in(sector: &[u8; 512]) -> PageHead
    ensures { result ≡ head_in sector.now }
{
    PageHead {
        house: HouseNumber(u32::take(sector, 4)),
        number: PageNumber(u64::take(sector, 8)),
        first: CommandNumber(u64::take(sector, 16)),
    }
}

// The good page in a sector.
fn page_in(sector: &[u8; 512]) -> Option<Page>
    ensures { decoded_page sector.now ≡ said result }
{
    let head = head_in(sector);
    let count = u16::take(sector, 24);
    if !is_laid_out(sector) {
        return None;
    }
    if !head.has_good_numbers(count as usize) {
        return None;
    }
    let end = u16::take(sector, 0) as usize;
    if !all_zero_from(sector, end) {
        return None;
    }
    let commands = commands_in(&sector[28..end], count)?;
    Some(Page { head, commands })
}

impl Page {
    /// The good page whose sector this is.
    pub fn decode(sector: &[u8; 512]) -> Option<Page>
        ensures { DecodedPage sector.now (said result) }
    {
        page_in(sector)
    }
}

// Whether kind, house number and page number are those of this page.
fn is_page_of(sector: &[u8; 512], house: HouseNumber, number: PageNumber) -> bool
    ensures { result ≡ bytes_look_for house number sector.now }
{
    let kind = u16::take(sector, 2);
    let its_house = HouseNumber(u32::take(sector, 4));
    let its_number = PageNumber(u64::take(sector, 8));
    kind == RecordKind::Page as u16 && its_house == house && its_number == number
}

/// Whether the sector is that of this page, good or not: bytes 2 to 15 are kind 1, this house
/// number and this page number.
pub fn looks_for(sector: &[u8; 512], house: HouseNumber, number: PageNumber) -> bool
    ensures numbers { result ≡ bytes_look_for house number sector.now }
    ensures bytes { Looks house number sector.now result }
    ensures zeros { ZerosLookLikeNone }
{
    is_page_of(sector, house, number)
}
