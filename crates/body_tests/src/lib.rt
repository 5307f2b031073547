//! Bodies that must be refused: one by one, each field out of its range, a number twice, rank order
//! broken, buys that meet sells, a byte behind the end, and more orders than may rest.
//!
//! That load takes exactly the saved bodies is proved with the markets; these tests show it.
#![tactic(auto)]

use book::shape::Book;
use call::shape::CallAuction;
use market::interface::Market;
use records::refusals::Refusal;

#[cfg(test)]
mod tests {
    use super::*;
    use std::test::Fail;

    // A number in so many bytes of a body.
    #[derive(Clone, Copy)]
    struct Field {
        at: u16,
        width: u16,
        number: u64,
    }

    const fn number_at(at: u16, width: u16, number: u64) -> Field {
        Field { at, width, number }
    }

    // A state that both markets can hold: last number 5, a buy 2 of member 7 at 100 for 3 lots, a buy
    // 4 of member 8 at 99 for 5, and a sell 3 of member 9 at 105 for 1.
    fn good_fields() -> [Field; 15] {
        [
            number_at(0, 8, 5),
            number_at(8, 2, 2),
            number_at(10, 2, 1),
            number_at(12, 8, 2),
            number_at(20, 4, 7),
            number_at(24, 4, 100),
            number_at(28, 4, 3),
            number_at(32, 8, 4),
            number_at(40, 4, 8),
            number_at(44, 4, 99),
            number_at(48, 4, 5),
            number_at(52, 8, 3),
            number_at(60, 4, 9),
            number_at(64, 4, 105),
            number_at(68, 4, 1),
        ]
    }

    // Fields written over the good ones, each of which alone makes a body that no market takes.
    fn bad_fields() -> [Field; 28] {
        [
            // the last number
            number_at(0, 8, 3),
            number_at(0, 8, 1_000_000_000_001),
            // the counts
            number_at(8, 2, 33),
            number_at(10, 2, 33),
            number_at(8, 2, 1),
            number_at(10, 2, 2),
            // a buy's number, member, price and lots
            number_at(12, 8, 0),
            number_at(12, 8, 6),
            number_at(20, 4, 0),
            number_at(20, 4, 1_000_000),
            number_at(24, 4, 0),
            number_at(24, 4, 1_000_001),
            number_at(28, 4, 0),
            number_at(28, 4, 1_000_001),
            // a sell's
            number_at(52, 8, 0),
            number_at(52, 8, 6),
            number_at(60, 4, 0),
            number_at(60, 4, 1_000_000),
            number_at(64, 4, 0),
            number_at(64, 4, 1_000_001),
            number_at(68, 4, 0),
            number_at(68, 4, 1_000_001),
            // a number twice, on one side and on both
            number_at(32, 8, 2),
            number_at(52, 8, 2),
            // rank order broken
            number_at(44, 4, 101),
            number_at(24, 4, 98),
            // a byte behind the end
            number_at(72, 1, 1),
            number_at(1535, 1, 1),
        ]
    }

    // By hand, apart from the code that it tests.
    fn put(body: &mut [u8; 1536], f: Field) {
        let mut rest = f.number;
        for i in 0..f.width as usize {
            let at = f.at as usize + i;
            if at < 1536 {
                body[at] = (rest % 256) as u8;
            }
            rest /= 256;
        }
    }

    fn good_body() -> [u8; 1536] {
        let mut body = [0; 1536];
        for f in good_fields() {
            put(&mut body, f);
        }
        body
    }

    fn bad_body(f: Field) -> [u8; 1536] {
        let mut body = good_body();
        put(&mut body, f);
        body
    }

    // Whether a market takes a body, and then saves the same bytes.
    fn takes<M: Market>(market: &mut M, body: &[u8; 1536]) -> bool {
        let mut saved = [0; 1536];
        match market.load(body) {
            Ok(_) => {
                market.save(&mut saved);
                saved == *body
            }
            Err(_) => false,
        }
    }

    // Whether a market refuses a body with reason 18, and keeps its state.
    fn refuses<M: Market>(market: &mut M, body: &[u8; 1536]) -> bool {
        let mut before = [0; 1536];
        let mut after = [0; 1536];
        market.save(&mut before);
        match market.load(body) {
            Ok(_) => false,
            Err(reason) => {
                market.save(&mut after);
                reason.number() == 18 && after == before
            }
        }
    }

    #[test]
    fn book_refuses(rt: HostRuntime) -> Result<(), Fail> {
        let mut market = Book::new(rt.alloc())?;
        assert!(rt; takes(&mut market, &good_body()));
        for f in bad_fields() {
            assert!(rt; refuses(&mut market, &bad_body(f)));
        }
        // a buy that meets a sell
        assert!(rt; refuses(&mut market, &bad_body(number_at(64, 4, 100))));
        Ok(())
    }

    #[test]
    fn call_refuses(rt: HostRuntime) -> Result<(), Fail> {
        let mut market = CallAuction::new(rt.alloc())?;
        assert!(rt; takes(&mut market, &good_body()));
        for f in bad_fields() {
            assert!(rt; refuses(&mut market, &bad_body(f)));
        }
        // buys and sells may meet before a cross
        assert!(rt; takes(&mut market, &bad_body(number_at(64, 4, 100))));
        Ok(())
    }
}
