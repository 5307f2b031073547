//! The command line: chooses the job that the arguments ask for, and reports what is wrong.
//!
//! Proved: every function is safe and ends, on every input; which word is which command's name; the job is that of the command
//! that the first word names, with the script or the file that the second one names, and what its options say, but for those of
//! `drill` (specs/Words, specs/Options). Only tested: the words of a pile, and what is printed. Trusted: the toolchain and the C
//! library.
#![tactic(auto)]

pub mod asking;
pub mod faults;
pub mod helps;
mod options;

use crate::asking::{Job, job_of};
use crate::faults::Fault;
use crate::helps::{print_help, print_overview};
use drills::drilling::{Options, drill_script};
use halls::setting::set_up_file;
use halls::showing::show_file;
use jobs::matching::match_orders;
use jobs::paging::page_orders;
use plays::playing::play_scripts;
use runs::running::run_file;
use std::env;
use std::process::ExitCode;

fn run_drill(rt: &HostRuntime, options: Options) -> Result<(), Fault> {
    if drill_script(rt, options)? {
        Ok(())
    } else {
        Err(Fault::Broken)
    }
}

/// Does what these words ask for.
pub fn run_words(rt: &HostRuntime, words: &[&str]) -> Result<(), Fault> {
    match job_of(rt.alloc(), words)? {
        Job::Help(None) => print_overview(rt)?,
        Job::Help(Some(command)) => print_help(rt, command)?,
        Job::Match { market, file } => match_orders(rt, market, file)?,
        Job::Page { sectors, file } => page_orders(rt, sectors, file)?,
        Job::Play { scripts } => play_scripts(rt, scripts)?,
        Job::Drill(options) => run_drill(rt, options)?,
        Job::SetUp(setting) => set_up_file(rt, setting)?,
        Job::Run(run) => run_file(rt, run)?,
        Job::Show { file } => show_file(rt, file)?,
    }
    Ok(())
}

fn run(rt: &HostRuntime) -> Result<(), Fault> {
    let heap = rt.alloc();
    let args: Vec<String> = env::args(rt)?.skip(1).collect(heap)?;
    let words: Vec<&str> = args.iter().map(|arg| arg.as_str()).collect(heap)?;
    run_words(rt, &words)
}

/// Does what the arguments ask for; what is wrong goes to standard error, too.
pub fn run_and_report(rt: &HostRuntime) -> Result<(), Fault> {
    let done = run(rt);
    if let Err(fault) = &done {
        let _ = eprintln!(rt; "hammerbuff: {fault}");
    }
    done
}

/// The whole program.
pub fn run_program(rt: &HostRuntime) -> ExitCode {
    match run_and_report(rt) {
        Ok(()) => ExitCode::SUCCESS,
        Err(_) => ExitCode::FAILURE,
    }
}
