//! A script from an input.
use console::input::lines::each_line;
use jobs::faults::JobFault;
use jobs::reading::{open_file, take_words};
use play_words::faults::{PlayFault, ScriptFault};
use play_words::script::{Reader, Script};
use std::alloc::Global;
use std::io::Read;

fn at_line<T>(line: u64, done: Result<T, PlayFault>) -> Result<T, JobFault> {
    done.map_err(|why| JobFault::Script(ScriptFault { line, why }))
}

/// Reads the whole script.
pub fn read_script<I: Read + Drop>(heap: Global, input: I) -> Result<Script, JobFault> {
    let mut reader = Reader::new();
    let newlines = each_line(heap, input, |line, buffer| {
        at_line(
            line,
            take_words(heap, buffer, |words| reader.take(heap, words)),
        )
    })?;
    at_line(newlines.saturating_add(1), reader.finish())
}

/// Reads the whole script in the file of this name.
pub fn script_in(rt: &HostRuntime, name: &str) -> Result<Script, JobFault> {
    read_script(rt.alloc(), open_file(rt, name)?)
}
