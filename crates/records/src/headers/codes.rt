ghost use Rattle.std.specs.Prelude.{◌≡◌};
ghost use Rattle.records.specs.Headers.{counts_good, header_laid_out, header_in_bytes, header_sector_bytes, decoded_header, HeaderComesBack, DecodedHeader, ZerosNoHeader};

use super::Header;
use crate::buffers::Record;
use crate::kinds::RecordKind;
use crate::little_endian::LittleEndian;
use crate::numbers::{CommandNumber, HouseNumber, LAST_NUMBER, NoticeNumber, PageNumber};
use crate::sectors::all_zero_from;

// Whether the length, the kind and the two zero bytes are those of a header. (No one text with the page's: the lengths are
// tested in two ways, and what is left is two comparisons.)
fn is_laid_out(sector: &[u8; 512]) -> bool
    ensures { result ≡ header_laid_out sector.now }
{
    let length = u16::take(sector, 0);
    let kind = u16::take(sector, 2);
    let blank = u16::take(sector, 34);
    length == 36 && kind == RecordKind::Header as u16 && blank == 0
}

impl Header {
    // Whether its counts can be those of one exchange.
    fn has_good_counts(&self) -> bool
        ensures { result ≡ counts_good self.now }
    {
        self.page.0 <= self.commands.0
            && self.commands.0 <= LAST_NUMBER
            && self.commands.0 <= 16 * self.page.0
            && self.notices.0 <= 64 * self.commands.0
    }

    // The numbers where a header has them.
    fn numbers_in(sector: &[u8; 512]) -> Header
        ensures { result ≡ header_in_bytes sector.now }
    {
        Header {
            house: HouseNumber(u32::take(sector, 4)),
            page: PageNumber(u64::take(sector, 8)),
            commands: CommandNumber(u64::take(sector, 16)),
            notices: NoticeNumber(u64::take(sector, 24)),
            market: u16::take(sector, 32),
        }
    }

    // The good header in a sector.
    fn header_in(sector: &[u8; 512]) -> Option<Header>
        ensures { decoded_header sector.now ≡ result }
    {
        if !is_laid_out(sector) {
            return None;
        }
        if !all_zero_from(sector, 36) {
            return None;
        }
        let header = Header::numbers_in(sector);
        header.has_good_counts().then_some(header)
    }

    /// The sector of the header, which decodes to it where it is good.
    pub fn encode(&self) -> [u8; 512]
        ensures sector { result ≡ header_sector_bytes self.now }
        ensures back { HeaderComesBack self.now }
    {
        let mut out = Record::new();
        out.put(36u16);
        out.put(RecordKind::Header as u16);
        out.put(self.house.0);
        out.put(self.page.0);
        out.put(self.commands.0);
        out.put(self.notices.0);
        out.put(self.market);
        out.put(0u16);
        out.into_array()
    }

    /// The good header whose sector this is, whatever its house and market.
    pub fn decode(sector: &[u8; 512]) -> Option<Header>
        ensures value { DecodedHeader sector.now result }
        ensures zeros { ZerosNoHeader }
    {
        Header::header_in(sector)
    }
}
