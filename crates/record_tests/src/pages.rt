//! Pages that are no good, one change away from a good one.
use crate::changes::{Change, changed, each};
use records::commands::{Command, Side};
use records::numbers::{CommandNumber, HouseNumber, Lots, Member, PageNumber, Price};
use records::pages::{Page, PageHead, looks_for};
use std::test::Fail;

const HOUSE: HouseNumber = HouseNumber(7);

const NUMBER: PageNumber = PageNumber(5);

const COMMANDS: [Command; 3] = [
    Command::Enter {
        member: Member(42),
        side: Side::Buy,
        price: Price(104),
        lots: Lots(20),
    },
    Command::Cancel {
        member: Member(42),
        order: CommandNumber(65),
    },
    Command::Cross,
];

// The record of the page.
const RECORD: [u8; 66] = [
    0x42, 0x00, 0x01, 0x00, 0x07, 0x00, 0x00, 0x00, 0x05, 0x00, 0x00, 0x00, 0x00, 0x00, 0x00, 0x00,
    0x41, 0x00, 0x00, 0x00, 0x00, 0x00, 0x00, 0x00, 0x03, 0x00, 0x00, 0x00, 0x12, 0x00, 0x0b, 0x00,
    0x2a, 0x00, 0x00, 0x00, 0x00, 0x00, 0x68, 0x00, 0x00, 0x00, 0x14, 0x00, 0x00, 0x00, 0x10, 0x00,
    0x0c, 0x00, 0x2a, 0x00, 0x00, 0x00, 0x41, 0x00, 0x00, 0x00, 0x00, 0x00, 0x00, 0x00, 0x04, 0x00,
    0x0d, 0x00,
];

// Each makes a sector that is no good page.
const BAD: [Change; 51] = [
    // the length: one short, one long, far too long
    Change(0, 65),
    Change(0, 67),
    Change(1, 1),
    Change(1, 255),
    // the kind
    Change(2, 0),
    Change(2, 2),
    Change(3, 1),
    // page 0, first command 0
    Change(8, 0),
    Change(16, 0),
    // the count: none, one short, one long, too many
    Change(24, 0),
    Change(24, 2),
    Change(24, 4),
    Change(24, 17),
    Change(25, 1),
    // the two zero bytes
    Change(26, 1),
    Change(27, 1),
    // Enter: length, kind, member, side, price, lots
    Change(28, 17),
    Change(28, 19),
    Change(29, 1),
    Change(30, 10),
    Change(30, 12),
    Change(31, 1),
    Change(32, 0),
    Change(34, 16),
    Change(36, 2),
    Change(37, 1),
    Change(38, 0),
    Change(40, 16),
    Change(42, 0),
    Change(44, 16),
    // Cancel: length, kind, member, order
    Change(46, 15),
    Change(46, 17),
    Change(47, 1),
    Change(48, 11),
    Change(48, 13),
    Change(49, 1),
    Change(50, 0),
    Change(52, 16),
    Change(54, 0),
    Change(59, 1),
    Change(61, 1),
    // Cross: length, kind
    Change(62, 3),
    Change(62, 5),
    Change(63, 1),
    Change(64, 12),
    Change(64, 14),
    Change(65, 1),
    // a byte after the end
    Change(66, 1),
    Change(67, 1),
    Change(300, 255),
    Change(511, 1),
];

// Each makes a sector that does not look like this page: kind, house number, page number.
const STRANGE: [Change; 12] = [
    Change(2, 0),
    Change(2, 2),
    Change(3, 1),
    Change(4, 6),
    Change(4, 8),
    Change(5, 1),
    Change(7, 1),
    Change(8, 4),
    Change(8, 6),
    Change(9, 1),
    Change(14, 1),
    Change(15, 1),
];

// Each makes a sector that still looks like this page, good or not.
const ALIKE: [Change; 6] = [
    Change(0, 65),
    Change(1, 1),
    Change(16, 0),
    Change(24, 4),
    Change(28, 17),
    Change(511, 1),
];

fn sector(first: u64) -> Option<[u8; 512]> {
    let head = PageHead {
        house: HOUSE,
        number: NUMBER,
        first: CommandNumber(first),
    };
    head.encode(&COMMANDS)
}

#[test]
fn has_the_defined_bytes(rt: HostRuntime) -> Result<(), Fail> {
    let good = sector(65).ok_or("no sector")?;
    assert!(rt; good[0..66] == RECORD[..]);
    assert!(rt; good[66..512] == [0; 446][..]);
    Ok(())
}

#[test]
fn comes_back(rt: HostRuntime) -> Result<(), Fail> {
    let good = sector(65).ok_or("no sector")?;
    let Some(page) = Page::decode(&good) else {
        return Err(Fail::new("no page"));
    };
    assert_eq!(rt; page.head.house.0, 7);
    assert_eq!(rt; page.head.number.0, 5);
    assert_eq!(rt; page.head.first.0, 65);
    assert_eq!(rt; page.commands.as_slice().len(), 3);
    Ok(())
}

// Whether each change makes a sector that is no good page. (One line over `each`; its twin asks for a header.)
fn are_refused(good: &[u8; 512], changes: &[Change]) -> bool {
    each(good, changes, |sector| Page::decode(sector).is_none())
}

// Whether each change makes a sector that looks like this page, or that does not.
fn all_look(good: &[u8; 512], changes: &[Change], alike: bool) -> bool {
    each(
        good,
        changes,
        |sector| looks_for(sector, HOUSE, NUMBER) == alike,
    )
}

#[test]
fn one_change_is_refused(rt: HostRuntime) -> Result<(), Fail> {
    let good = sector(65).ok_or("no sector")?;
    assert!(rt; are_refused(&good, &BAD));
    Ok(())
}

#[test]
fn looks_for_its_own_number_alone(rt: HostRuntime) -> Result<(), Fail> {
    let good = sector(65).ok_or("no sector")?;
    assert!(rt; looks_for(&good, HOUSE, NUMBER));
    assert!(rt; all_look(&good, &STRANGE, false));
    assert!(rt; all_look(&good, &ALIKE, true));
    Ok(())
}

#[test]
fn zeros_look_like_none(rt: HostRuntime) {
    assert!(rt; !looks_for(&[0; 512], HOUSE, NUMBER));
    assert!(rt; !looks_for(&[0; 512], HouseNumber(0), PageNumber(0)));
    assert!(rt; Page::decode(&[0; 512]).is_none());
}

#[test]
fn cut_command_is_refused(rt: HostRuntime) -> Result<(), Fail> {
    let good = sector(65).ok_or("no sector")?;
    let shorter = changed(&good, Change(0, 64));
    assert!(rt; Page::decode(&changed(&shorter, Change(64, 0))).is_none());
    Ok(())
}

#[test]
fn last_number_is_the_limit(rt: HostRuntime) -> Result<(), Fail> {
    let last = sector(999_999_999_998).ok_or("no sector")?;
    assert!(rt; last[16] == 0xfe);
    assert!(rt; Page::decode(&last).is_some());
    assert!(rt; Page::decode(&changed(&last, Change(16, 0xff))).is_none());
    assert!(rt; sector(999_999_999_999).is_none());
    assert!(rt; sector(0).is_none());
    Ok(())
}

#[test]
fn no_page_of_bad_commands(rt: HostRuntime) {
    let head = PageHead {
        house: HOUSE,
        number: NUMBER,
        first: CommandNumber(1),
    };
    assert!(rt; head.encode(&[]).is_none());
    assert!(rt; head.encode(&[Command::Cross; 16]).is_some());
    assert!(rt; head.encode(&[Command::Cross; 17]).is_none());
    let nobody = Command::Cancel {
        member: Member(0),
        order: CommandNumber(1),
    };
    assert!(rt; head.encode(&[Command::Cross, nobody]).is_none());
}
