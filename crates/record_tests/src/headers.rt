//! Headers that are no good, one change away from a good one, and the choice between two.
use crate::changes::{Change, changed, each};
use book::shape::Book;
use journal::choosing::{first_header, own_header};
use records::headers::Header;
use records::numbers::{CommandNumber, HouseNumber, NoticeNumber, PageNumber};
use std::test::Fail;

const HOUSE: HouseNumber = HouseNumber(7);

// The record of a header: page 5, 66 commands, 70 notices.
const RECORD: [u8; 36] = [
    0x24, 0x00, 0x02, 0x00, 0x07, 0x00, 0x00, 0x00, 0x05, 0x00, 0x00, 0x00, 0x00, 0x00, 0x00, 0x00,
    0x42, 0x00, 0x00, 0x00, 0x00, 0x00, 0x00, 0x00, 0x46, 0x00, 0x00, 0x00, 0x00, 0x00, 0x00, 0x00,
    0x01, 0x00, 0x00, 0x00,
];

// Each makes a sector that is no good header.
const BAD: [Change; 17] = [
    // the length: one short, one long
    Change(0, 35),
    Change(0, 37),
    Change(1, 1),
    // the kind
    Change(2, 1),
    Change(2, 3),
    Change(3, 1),
    // more pages than commands, twice
    Change(8, 67),
    Change(15, 1),
    // more than 16 commands a page, fewer than one
    Change(16, 81),
    Change(16, 4),
    Change(22, 1),
    // more than 64 notices a command
    Change(25, 17),
    Change(31, 1),
    // the two zero bytes
    Change(34, 1),
    Change(35, 1),
    // a byte after the end
    Change(36, 1),
    Change(511, 1),
];

// Each makes a good header, but of another house or of another market.
const OTHERS: [Change; 6] = [
    Change(4, 6),
    Change(4, 8),
    Change(7, 1),
    Change(32, 0),
    Change(32, 2),
    Change(33, 1),
];

fn header(page: u64, commands: u64, notices: u64) -> Header {
    Header {
        house: HOUSE,
        page: PageNumber(page),
        commands: CommandNumber(commands),
        notices: NoticeNumber(notices),
        market: 1,
    }
}

#[test]
fn has_the_defined_bytes(rt: HostRuntime) {
    let good = header(5, 66, 70).encode();
    assert!(rt; good[0..36] == RECORD[..]);
    assert!(rt; good[36..512] == [0; 476][..]);
}

#[test]
fn comes_back(rt: HostRuntime) -> Result<(), Fail> {
    let good = header(5, 66, 70).encode();
    let back = own_header::<Book>(&good, HOUSE).ok_or("no header")?;
    assert_eq!(rt; back.page.0, 5);
    assert_eq!(rt; back.commands.0, 66);
    assert_eq!(rt; back.notices.0, 70);
    Ok(())
}

// Whether each change makes a sector that is no good header. (One line over `each`; its twin asks for a page.)
fn are_refused(good: &[u8; 512], changes: &[Change]) -> bool {
    each(good, changes, |sector| Header::decode(sector).is_none())
}

// Whether each change makes a good header that is not this house's or not this market's.
fn are_others(good: &[u8; 512], changes: &[Change]) -> bool {
    each(good, changes, |sector| {
        Header::decode(sector).is_some() && own_header::<Book>(sector, HOUSE).is_none()
    })
}

#[test]
fn one_change_is_refused(rt: HostRuntime) {
    let good = header(5, 66, 70).encode();
    assert!(rt; are_refused(&good, &BAD));
    assert!(rt; Header::decode(&[0; 512]).is_none());
}

#[test]
fn others_are_refused(rt: HostRuntime) {
    let good = header(5, 66, 70).encode();
    assert!(rt; are_others(&good, &OTHERS));
}

// Whether the sector of a header with these counts is a good one.
fn is_good(page: u64, commands: u64, notices: u64) -> bool {
    Header::decode(&header(page, commands, notices).encode()).is_some()
}

#[test]
fn counts_are_the_limit(rt: HostRuntime) {
    assert!(rt; is_good(5, 80, 5_120));
    assert!(rt; !is_good(5, 81, 5_120));
    assert!(rt; !is_good(5, 80, 5_121));
    assert!(rt; !is_good(81, 80, 0));
}

#[test]
fn last_command_is_the_limit(rt: HostRuntime) {
    assert!(rt; is_good(62_500_000_001, 1_000_000_000_000, 0));
    assert!(rt; !is_good(62_500_000_001, 1_000_000_000_001, 0));
}

#[test]
fn page_0_has_nothing(rt: HostRuntime) {
    assert!(rt; is_good(0, 0, 0));
    assert!(rt; !is_good(0, 1, 0));
    assert!(rt; !is_good(0, 0, 1));
}

// A number, since the tests' values are such numbers.
// The slot of the header that is chosen, 9 where none is.
fn chosen_slot(zero: &[u8; 512], one: &[u8; 512]) -> u8 {
    match first_header::<Book>(zero, one, HOUSE) {
        Some(chosen) => chosen.first.slot as u8,
        None => 9,
    }
}

#[test]
fn first_in_rank_is_chosen(rt: HostRuntime) {
    let old = header(5, 66, 70).encode();
    let new = header(6, 67, 70).encode();
    assert_eq!(rt; chosen_slot(&old, &new), 1);
    assert_eq!(rt; chosen_slot(&new, &old), 0);
    assert_eq!(rt; chosen_slot(&old, &old), 0);
    assert_eq!(rt; chosen_slot(&old, &changed(&new, Change(32, 2))), 0);
    assert_eq!(rt; chosen_slot(&changed(&new, Change(4, 8)), &old), 1);
    assert_eq!(rt; chosen_slot(&[0; 512], &[0; 512]), 9);
}
