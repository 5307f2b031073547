ghost use Rattle.std.specs.Prelude.{◌≡◌, ◌≤◌, ◌≢◌, length, MatchOption};
ghost use Rattle.records.specs.Kinds.{IsKind, kind_number};
ghost use Rattle.records.specs.LittleEndian.{field};
ghost use Rattle.records.specs.declared.kinds.RecordKind.{RecordKind as Kind};

use super::{NoKind, RecordKind};
use crate::little_endian::LittleEndian;

impl TryFrom<u16> for RecordKind {
    type Error = NoKind;

    ghost try_from_gives = { IsKind };

    fn try_from(number: u16) -> Result<RecordKind, NoKind> {
        match number {
            1 => Ok(RecordKind::Page),
            2 => Ok(RecordKind::Header),
            11 => Ok(RecordKind::Enter),
            12 => Ok(RecordKind::Cancel),
            13 => Ok(RecordKind::Cross),
            _ => Err(NoKind(number)),
        }
    }
}

// The kind whose number stands in a record's bytes 2 and 3.
pub(crate) fn kind_in(bytes: &[u8]) -> Option<RecordKind>
    requires { 4 ≤ length bytes.now }
    ensures { MatchOption result ((k : Kind) → kind_number k ≢ field 2 2 bytes.now) (λ k. kind_number k ≡ field 2 2 bytes.now) }
{
    RecordKind::try_from(u16::take(bytes, 2)).ok()
}
