//! Commands matched in a market.
use crate::faults::JobFault;
use crate::reading::{NotTaken, Taker, range_fault, take_from};
use book::shape::Continuous;
use call::shape::Crossing;
use console::day::Day;
use market::interface::Market;
use market::orders::Order;
pub use play_words::script::MarketKind;
use records::commands::{Command, Side};
use records::refusals::Refusal;
use ruled_market::rules::Rules;
use ruled_market::shape::RestingMarket;
use std::io;
use texts::lines::{CommandLine, NoticeLine, OrderLine};
use words::LineFault;

impl<M: Market> Taker for Day<M> {
    // The command goes through its record into the market.
    fn take_command(&mut self, rt: &HostRuntime, command: Command) -> Result<(), NotTaken> {
        let record = command.encode();
        let n = match self.take(record.as_bytes()) {
            Ok(n) => n,
            Err(Refusal::NumbersSpent) => {
                return Err(NotTaken::Refused(Refusal::NumbersSpent, LineFault::Spent));
            }
            Err(reason) => return Err(NotTaken::Refused(reason, range_fault(&command))),
        };
        let number = self.commands();
        println!(rt; "{}", CommandLine { number, command })?;
        for notice in self.list().iter().take(n) {
            println!(rt; "{}", NoticeLine(*notice))?;
        }
        Ok(())
    }
}

/// The resting orders of a side, a line each.
pub fn print_side(rt: &HostRuntime, side: Side, orders: &[Order]) -> io::Result<()> {
    for order in orders {
        let order = *order;
        println!(rt; "{}", OrderLine { side, order })?;
    }
    Ok(())
}

// Saves the market's body, loads it into a fresh market, and compares the two.
fn print_body<R: Rules>(rt: &HostRuntime, market: &RestingMarket<R>) -> Result<(), JobFault> {
    let mut body = [0; 1536];
    market.save(&mut body);
    let mut copy: RestingMarket<R> = RestingMarket::new(rt.alloc())?;
    if let Err(reason) = copy.load(&body) {
        let reason = reason.number();
        println!(rt; "body refused {reason}")?;
        return Ok(());
    }
    // No derived equality: it would ask one of R too, the marker of the rules, and of two types below the market.
    let same = market.last() == copy.last()
        && market.buys() == copy.buys()
        && market.sells() == copy.sells();
    if same {
        println!(rt; "body saved and loaded: same book")?;
    } else {
        println!(rt; "body saved and loaded: another book")?;
    }
    Ok(())
}

// A day of commands from a file or from standard input, and what rests at its end.
fn run_day<R: Rules>(rt: &HostRuntime, name: &str, file: Option<&str>) -> Result<(), JobFault> {
    let mut day: Day<RestingMarket<R>> = Day::new(rt.alloc())?;
    let refused = take_from(rt, file, &mut day)?;
    let (commands, notices) = (day.commands().0, day.notices().0);
    println!(rt; "{name} last {commands}")?;
    print_side(rt, Side::Buy, day.market.buys())?;
    print_side(rt, Side::Sell, day.market.sells())?;
    println!(rt; "done: {commands} commands, {notices} notices, {refused} lines refused")?;
    print_body(rt, &day.market)
}

// The market is chosen once, from a word: what follows is one generic function.
/// Matches the commands of the file of this name, or of standard input, in a market.
pub fn match_orders(
    rt: &HostRuntime,
    kind: MarketKind,
    file: Option<&str>,
) -> Result<(), JobFault> {
    match kind {
        MarketKind::Book => run_day::<Continuous>(rt, "book", file),
        MarketKind::Call => run_day::<Crossing>(rt, "call", file),
    }
}
