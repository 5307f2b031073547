//! Worked figures: small examples of the rules, proved of the definitions and run on the code.
//!
//! Proved: `figures_stand` has them all in its contract, each computed from the definitions that the
//! calls' contracts name. Tested: the same figures, by calls.
#![tactic(auto)]

ghost use Rattle.std.specs.Prelude.{◌≡◌, [], ◌∷◌};
ghost use Rattle.figures.specs.Figures.{Figures};

use records::buffers::Record;
use records::commands::Command;

/// Every worked figure holds of the definitions; the answer is the first of them, the record of a
/// cross.
pub fn figures_stand() -> Record
    ensures figures { Figures }
    ensures cross { result ≡ 4 ∷ (0 ∷ (13 ∷ (0 ∷ []))) }
{
    Command::Cross.encode()
}

#[cfg(test)]
mod tests {
    use book::shape::Book;
    use call::shape::CallAuction;
    use drives::{Direct, Drive};
    use exchange::state::Exchange;
    use journal::layouts::Layout;
    use market::interface::Market;
    use records::commands::{Command, Side};
    use records::notices::{Kind, Notice};
    use records::numbers::{CommandNumber, HouseNumber, Lots, Member, PageNumber, Price};
    use records::refusals::Refusal;
    use runner::log::Entry;
    use runner::running::run_script;
    use runner::script::Call;
    use std::test::Fail;

    fn enter(member: u32, side: Side, price: u32, lots: u32) -> Command {
        Command::Enter {
            member: Member(member),
            side,
            price: Price(price),
            lots: Lots(lots),
        }
    }

    fn blank() -> Notice {
        Notice {
            kind: Kind::Dropped,
            ..Notice::default()
        }
    }

    #[test]
    fn cross_is_four_bytes(rt: HostRuntime) {
        let cross = [4, 0, 13, 0];
        assert_eq!(rt; Command::Cross.encode().as_bytes(), cross.as_slice());
        assert!(rt; Command::decode(&[4, 0, 13, 0]).is_ok());
        assert!(rt; Command::decode(&[4, 0, 13]).is_err());
    }

    #[test]
    fn pages_have_places(rt: HostRuntime) -> Result<(), Fail> {
        assert!(rt; Layout::new(8).is_none());
        assert!(rt; Layout::new(9).is_some());
        let Some(layout) = Layout::new(12) else {
            return Err(Fail::new("12 sectors are refused"));
        };
        assert_eq!(rt; layout.page_sector(PageNumber(5)), 8);
        Ok(())
    }

    #[test]
    fn prices_have_a_range(rt: HostRuntime) {
        assert!(rt; enter(1, Side::Buy, 1_000_000, 1).is_good());
        assert!(rt; !enter(1, Side::Buy, 0, 1).is_good());
        assert!(rt; !enter(1, Side::Buy, 1_000_001, 1).is_good());
    }

    #[test]
    fn a_sell_meets_a_buy(rt: HostRuntime) -> Result<(), Fail> {
        let mut list = [blank(); 64];
        let mut book = Book::new(rt.alloc())?;
        let first = book.apply(&enter(1, Side::Buy, 104, 20), &mut list);
        assert!(rt; first.is_ok());
        let Ok(n) = book.apply(&enter(2, Side::Sell, 103, 5), &mut list) else {
            return Err(Fail::new("the sell is refused"));
        };
        assert_eq!(rt; n, 1);
        assert_eq!(rt; list[0].price.0, 104);
        assert_eq!(rt; list[0].lots.0, 5);
        assert!(rt; book.buys().len() == 1);
        assert_eq!(rt; book.buys()[0].lots.0, 15);
        assert_eq!(rt; book.sells().len(), 0);
        Ok(())
    }

    #[test]
    fn a_cross_clears(rt: HostRuntime) -> Result<(), Fail> {
        let mut list = [blank(); 64];
        let mut call = CallAuction::new(rt.alloc())?;
        assert!(rt; call.apply(&enter(1, Side::Buy, 105, 10), &mut list).is_ok());
        assert!(rt; call.apply(&enter(2, Side::Buy, 101, 5), &mut list).is_ok());
        assert!(rt;
            call.apply(&enter(3, Side::Sell, 101, 10), &mut list)
                .is_ok()
        );
        let Ok(n) = call.apply(&Command::Cross, &mut list) else {
            return Err(Fail::new("the cross is refused"));
        };
        assert_eq!(rt; n, 1);
        assert_eq!(rt; list[0].price.0, 101);
        assert_eq!(rt; list[0].lots.0, 10);
        assert_eq!(rt; call.buys().len(), 1);
        assert_eq!(rt; call.sells().len(), 0);
        Ok(())
    }

    #[test]
    fn another_member_cancels_nothing(rt: HostRuntime) -> Result<(), Fail> {
        let mut list = [blank(); 64];
        let mut book = Book::new(rt.alloc())?;
        let first = book.apply(&enter(1, Side::Buy, 104, 20), &mut list);
        assert!(rt; first.is_ok());
        let cancel = Command::Cancel {
            member: Member(2),
            order: CommandNumber(1),
        };
        let Ok(n) = book.apply(&cancel, &mut list) else {
            return Err(Fail::new("the cancel is refused"));
        };
        assert_eq!(rt; n, 0);
        assert_eq!(rt; book.buys().len(), 1);
        Ok(())
    }

    // A book of house 7 on a direct drive over these bytes.
    fn over<'a>(rt: &HostRuntime, image: &'a mut [u8]) -> Result<Exchange<Book, Direct<'a>>, Fail> {
        Ok(Exchange::new(rt.alloc(), HouseNumber(7), Drive::direct(image))?)
    }

    #[test]
    fn an_exchange_wants_nine_sectors(rt: HostRuntime) -> Result<(), Fail> {
        let mut eight = [0; 8 * 513];
        let Err(fault) = over(&rt, &mut eight)?.set_up() else {
            return Err(Fail::new("8 sectors are taken"));
        };
        assert!(rt; fault.reason == Refusal::DeviceSize);
        let mut nine = [0; 9 * 513];
        assert!(rt; over(&rt, &mut nine)?.set_up().is_ok());
        Ok(())
    }

    #[test]
    fn an_exchange_stages_good_prices(rt: HostRuntime) -> Result<(), Fail> {
        let mut image = [0; 9 * 513];
        let mut exchange = over(&rt, &mut image)?;
        assert!(rt; exchange.set_up().is_ok());
        let high = enter(1, Side::Buy, 1_000_000, 1).encode();
        assert!(rt; exchange.stage(high.as_bytes()).is_ok());
        for price in [0, 1_000_001] {
            let bad = enter(1, Side::Buy, price, 1).encode();
            let Err(fault) = exchange.stage(bad.as_bytes()) else {
                return Err(Fail::new("a bad price is staged"));
            };
            assert!(rt; fault.reason == Refusal::NotACommand);
        }
        Ok(())
    }

    #[test]
    fn a_snapshot_frees_the_journal(rt: HostRuntime) -> Result<(), Fail> {
        let heap = rt.alloc();
        let mut image = [0; 9 * 513];
        let mut exchange = over(&rt, &mut image)?;
        let script = [
            Call::Stage([4, 0, 13, 0].to_vec(heap)?),
            Call::Write,
            Call::Sync {
                ticket: 1,
                room: 64,
            },
            Call::Stage([4, 0, 13, 0].to_vec(heap)?),
            Call::Write,
            Call::Snapshot,
            Call::Write,
        ];
        let Ok(run) = run_script(heap, &mut exchange, &script) else {
            return Err(Fail::new("the script is not run"));
        };
        let Entry::Write(Err(full)) = &run.log[4] else {
            return Err(Fail::new("the second page is written over the first"));
        };
        assert!(rt; full.reason == Refusal::JournalFull);
        let Entry::Write(Ok(ticket)) = &run.log[6] else {
            return Err(Fail::new("the second page is refused after a snapshot"));
        };
        assert_eq!(rt; ticket.page.0, 2);
        Ok(())
    }
}
