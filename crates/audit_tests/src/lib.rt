//! Tests of the audit: the log of a day is kept, and each of a row of logs that were tampered with is not. Nothing here but
//! tests.
#![tactic(auto)]

#[cfg(test)]
mod tests {
    use audit::audit_log;
    use book::shape::Continuous;
    use drives::Drive;
    use exchange::state::Exchange;
    use protocol::faults::ExchangeFault;
    use records::commands::{Command, Side};
    use records::numbers::{HouseNumber, Lots, Member, Price};
    use records::refusals::Refusal;
    use ruled_market::shape::RestingMarket;
    use runner::log::Entry;
    use runner::running::{Run, run_script};
    use runner::script::Call;
    use std::alloc::{AllocError, Global};
    use std::test::Fail;

    // What is done to a log.
    #[derive(Clone, Copy, Debug)]
    enum Tampering {
        Nothing,
        // A receipt tells of a notice more.
        MoreNotices,
        // A notice is at another price.
        AnotherPrice,
        // The entry at this place is gone.
        Without(usize),
        // An opening was refused for damage.
        Damage,
        // A receipt was delivered that begins at another notice.
        Gap,
        // A command was staged that the record has not.
        Stranger,
    }

    fn stage(
        heap: Global,
        member: u32,
        side: Side,
        price: u32,
        lots: u32,
    ) -> Result<Call, AllocError> {
        let command = Command::Enter {
            member: Member(member),
            side,
            price: Price(price),
            lots: Lots(lots),
        };
        Ok(Call::Stage(Vec::from_slice(heap, command.encode().as_bytes())?))
    }

    // Two pages, of which the first is delivered, and an opening. The places of the calls are those of the log.
    fn day(heap: Global) -> Result<Vec<Call>, AllocError> {
        let mut calls = Vec::new(heap);
        calls.push(stage(heap, 1, Side::Buy, 104, 20)?)?;
        calls.push(stage(heap, 2, Side::Sell, 103, 5)?)?;
        calls.push(Call::Write)?;
        calls.push(Call::Sync {
            ticket: 1,
            room: 1024,
        })?;
        calls.push(Call::Deliver(1))?;
        calls.push(stage(heap, 3, Side::Sell, 104, 15)?)?;
        calls.push(Call::Write)?;
        calls.push(Call::Sync {
            ticket: 2,
            room: 1024,
        })?;
        calls.push(Call::Restart)?;
        calls.push(Call::Open)?;
        calls.push(Call::Replay { room: 1024 })?;
        calls.push(Call::Replay { room: 1024 })?;
        calls.push(Call::Replay { room: 1024 })?;
        Ok(calls)
    }

    fn tamper(log: &mut Vec<Entry>, how: Tampering) -> Result<(), AllocError> {
        match how {
            Tampering::Nothing => {}
            Tampering::MoreNotices => {
                if let Some(Entry::Sync(_, _, Ok(handed))) = log.get_mut(3) {
                    handed.receipt.notices = 2;
                }
            }
            Tampering::AnotherPrice => {
                if let Some(Entry::Replay(_, Ok(Some(handed)))) = log.get_mut(10) {
                    if let Some(notice) = handed.notices.first_mut() {
                        notice.price = Price(103);
                    }
                }
            }
            Tampering::Without(place) => {
                if place < log.len() {
                    log.remove(place);
                }
            }
            Tampering::Damage => log.push(Entry::Open(Err(ExchangeFault::from(
                Refusal::NoHeader,
            ))))?,
            Tampering::Gap => {
                if let Some(Entry::Deliver(receipt, _)) = log.get_mut(4) {
                    receipt.notice.0 = 2;
                }
            }
            Tampering::Stranger => {
                if let Some(Entry::Stage(bytes, _)) = log.get_mut(5) {
                    if let Some(last) = bytes.last_mut() {
                        *last = 1;
                    }
                }
            }
        }
        Ok(())
    }

    // A tampering, and whether the promises hold after it.
    const CASES: [(Tampering, bool); 11] = [
        (Tampering::Nothing, true),
        (Tampering::MoreNotices, false),
        (Tampering::AnotherPrice, false),
        // without a write, its page's receipt is nobody's
        (Tampering::Without(2), false),
        (Tampering::Without(6), false),
        // without a delivery, the first page's notice is awaited too, and it came
        (Tampering::Without(4), true),
        // the second page's notice is awaited, and did not come
        (Tampering::Without(11), false),
        // the first page's was delivered
        (Tampering::Without(10), true),
        (Tampering::Damage, false),
        (Tampering::Gap, false),
        (Tampering::Stranger, false),
    ];

    #[test]
    fn tampered_logs_are_found(rt: HostRuntime) -> Result<(), Fail> {
        let heap = rt.alloc();
        let script = day(heap)?;
        for (how, kept) in CASES {
            let mut image = [0; 12 * 513];
            let drive = Drive::direct(&mut image);
            let mut exchange: Exchange<RestingMarket<Continuous>, _> = Exchange::new(
                heap,
                HouseNumber(7),
                drive,
            )?;
            let Ok(Run { mut log, closing }) = run_script(heap, &mut exchange, &script) else {
                assert!(rt; false);
                return Ok(());
            };
            tamper(&mut log, how)?;
            assert_eq!(rt; audit_log(heap, &exchange, &log)?, kept, "{how:?}");
        }
        Ok(())
    }
}
