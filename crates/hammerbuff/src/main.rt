//! Hammerbuff, the program.
#![tactic(auto)]

use cli::run_program;
use std::process::ExitCode;

fn main(rt: HostRuntime) -> ExitCode {
    run_program(&rt)
}
