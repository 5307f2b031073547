ghost use Rattle.std.specs.Prelude.{◌≡◌, ℕ, ◌+◌, ◌≤◌, ◌++◌, length, if◌then◌else◌, Some, None, nat_le};
ghost use Rattle.records.specs.LittleEndian.{field};
ghost use Rattle.records.specs.Commands.{good, encoded, decoded, enter_in_bytes, IsSide, ComesBack, Decoded};

use super::{Command, NoSide, Side};
use crate::buffers::Record;
use crate::kinds::{RecordKind, kind_in};
use crate::little_endian::LittleEndian;
use crate::numbers::{CommandNumber, LAST_NUMBER, Lots, Member, Price};
use crate::refusals::Refusal;

impl TryFrom<u16> for Side {
    type Error = NoSide;

    ghost try_from_gives = { IsSide };

    fn try_from(number: u16) -> Result<Side, NoSide> {
        match number {
            0 => Ok(Side::Buy),
            1 => Ok(Side::Sell),
            _ => Err(NoSide(number)),
        }
    }
}

impl Command {
    /// Whether each of its numbers lies in its range.
    pub fn is_good(&self) -> bool
        ensures { result ≡ good self.now }
    {
        match *self {
            Command::Enter {
                member,
                side: _,
                price,
                lots,
            } => member.is_good() && price.is_good() && lots.is_good(),
            Command::Cancel { member, order } => {
                member.is_good() && (1..=LAST_NUMBER).contains(&order.0)
            }
            Command::Cross => true,
        }
    }

    // Adds its record to what is written. Each arm lays the record out, its length first, as the definition does.
    pub(crate) fn encode_after(&self, out: &mut Record)
        requires { length out.old + 18 ≤ 512 }
        ensures bytes { out.new ≡ out.old ++ encoded self.now }
        ensures len { length out.new ≤ length out.old + 18 }
    {
        match *self {
            Command::Enter {
                member,
                side,
                price,
                lots,
            } => {
                out.put(18u16);
                out.put(RecordKind::Enter as u16);
                out.put(member.0);
                out.put(side as u16);
                out.put(price.0);
                out.put(lots.0);
            }
            Command::Cancel { member, order } => {
                out.put(16u16);
                out.put(RecordKind::Cancel as u16);
                out.put(member.0);
                out.put(order.0);
            }
            Command::Cross => {
                out.put(4u16);
                out.put(RecordKind::Cross as u16);
            }
        }
    }

    /// The record of the command, which decodes to it where it is good.
    pub fn encode(&self) -> Record
        ensures bytes { result ≡ encoded self.now }
        ensures back { ComesBack self.now }
    {
        let mut out = Record::new();
        self.encode_after(&mut out);
        out
    }

    /// The good command that `bytes` are the record of.
    pub fn decode(bytes: &[u8]) -> Result<Command, Refusal>
        ensures { Decoded bytes.now result }
    {
        command_in(bytes).ok_or(Refusal::NotACommand)
    }
}

// The Enter in 18 bytes, whatever its numbers.
fn enter_in(bytes: &[u8]) -> Option<Command>
    requires { length bytes.now ≡ 18 }
    ensures { result ≡ (if nat_le (field 8 2 bytes.now) 1 then Some (enter_in_bytes bytes.now) else None) }
{
    Some(Command::Enter {
        member: Member(u32::take(bytes, 4)),
        side: Side::try_from(u16::take(bytes, 8)).ok()?,
        price: Price(u32::take(bytes, 10)),
        lots: Lots(u32::take(bytes, 14)),
    })
}

// The command read from bytes. The lengths are the layout's, as the definition names them.
pub(crate) fn command_in(bytes: &[u8]) -> Option<Command>
    ensures { result ≡ decoded bytes.now }
{
    let n = bytes.len();
    if n < 4 || u16::take(bytes, 0) as usize != n {
        return None;
    }
    let command = match (kind_in(bytes)?, n) {
        (RecordKind::Enter, 18) => enter_in(bytes)?,
        (RecordKind::Cancel, 16) => Command::Cancel {
            member: Member(u32::take(bytes, 4)),
            order: CommandNumber(u64::take(bytes, 8)),
        },
        (RecordKind::Cross, 4) => Command::Cross,
        _ => return None,
    };
    command.is_good().then_some(command)
}
