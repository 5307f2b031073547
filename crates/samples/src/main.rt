//! Hammerbuff, the program, asked for one thing after the other: an auction, pages on a ring, scripts of an exchange, and two drills.
//! One program, since each is built anew for the gate.
#![tactic(auto)]

use cli::faults::Fault;
use cli::run_words;
use std::io;
use std::process::ExitCode;

const SAMPLES: [&[&str]; 5] = [
    &["match", "auction.txt", "--market", "call"],
    &["page", "pages.txt", "--sectors", "11"],
    &[
        "play",
        "found.script",
        "lost.script",
        "replay_cut.script",
        "snapshot_cut.script",
        "round.script",
        "mirror.script",
    ],
    &["drill", "book.script", "--plans", "3"],
    &[
        "drill",
        "call.script",
        "--plans",
        "3",
        "--pile",
        "mirror",
        "writeback",
        "12",
        "writeback",
        "12",
    ],
];

fn print_words(rt: &HostRuntime, words: &[&str]) -> io::Result<()> {
    print!(rt; "$ hammerbuff")?;
    for word in words {
        print!(rt; " {word}")?;
    }
    println!(rt; "")
}

fn run_samples(rt: &HostRuntime) -> Result<(), Fault> {
    for words in SAMPLES {
        print_words(rt, words)?;
        run_words(rt, words)?;
    }
    Ok(())
}

fn main(rt: HostRuntime) -> ExitCode {
    match run_samples(&rt) {
        Ok(()) => ExitCode::SUCCESS,
        Err(_) => ExitCode::FAILURE,
    }
}
