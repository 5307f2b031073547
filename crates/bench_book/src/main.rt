//! Matches the commands of a made-up market in the book, as many as its argument says, and prints what came of them. Told a file
//! and a number, it sends so many pages of the same commands over the exchange that was set up there, house 7.
//!
//! bench/run.sh measures it against bench/book.rs, which does the same in plain Rust. Proved: every function is safe and ends.
//! What is printed is tested, not proved.
#![tactic(auto)]

mod pages;
mod stream;

use book::shape::Book;
use market::interface::Market;
use pages::send;
use records::notices::Notice;
use records::refusals::Refusal;
use std::env;
use stream::Stream;

// How many commands are matched where no argument says.
const COMMANDS: u64 = 10_000;

/// What came of the commands so far.
#[derive(Clone, Copy)]
struct Tally {
    notices: u64,
    // Of every notice, in its order: a notice that differs, or stands elsewhere, makes another sum.
    sum: u64,
}

impl Tally {
    fn note(&mut self, notice: &Notice) {
        let traded = u64::from(notice.lots.0).wrapping_mul(u64::from(notice.price.0));
        let members = u64::from(notice.a.member.0).wrapping_add(u64::from(notice.b.member.0));
        let orders = notice.a.order.0.wrapping_add(notice.b.order.0);
        let command = notice
            .command
            .0
            .wrapping_add(u64::from(notice.kind.number()));
        let word = traded
            .wrapping_add(members)
            .wrapping_add(orders)
            .wrapping_add(command);
        self.notices = self.notices.wrapping_add(1);
        self.sum = self.sum.wrapping_mul(31).wrapping_add(word);
    }
}

// One command of the stream in the book, with its notices over the front of the list.
fn step(
    stream: &mut Stream,
    book: &mut Book,
    list: &mut [Notice],
    tally: &mut Tally,
) -> Result<(), Refusal> {
    let command = stream.next_command(book);
    let n = book.apply(&command, list)?;
    for notice in list.iter().take(n) {
        tally.note(notice);
    }
    Ok(())
}

fn run(book: &mut Book, commands: u64) -> Result<Tally, Refusal> {
    let mut stream = Stream::new();
    let mut list = [Notice::default(); 64];
    let mut tally = Tally { notices: 0, sum: 0 };
    for _ in 0..commands {
        step(&mut stream, book, &mut list, &mut tally)?;
    }
    Ok(tally)
}

fn match_commands(rt: &HostRuntime, commands: u64) -> anyhow::Result<()> {
    let mut book = Book::new(rt.alloc())?;
    match run(&mut book, commands) {
        Ok(Tally { notices, sum }) => {
            let (buys, sells) = (book.buys().len(), book.sells().len());
            println!(rt;
                "{commands} commands, {notices} notices, sum {sum}, {buys} buys and {sells} sells rest"
            )?;
        }
        Err(reason) => println!(rt; "refused {}", reason.number())?,
    }
    Ok(())
}

fn main(rt: HostRuntime) -> anyhow::Result<()> {
    let heap = rt.alloc();
    let args: Vec<String> = env::args(&rt)?.skip(1).collect(heap)?;
    match args.as_slice() {
        [] => match_commands(&rt, COMMANDS),
        [commands] => match_commands(&rt, commands.parse()?),
        [file, pages, ..] => send(&rt, file, pages.parse()?),
    }
}
