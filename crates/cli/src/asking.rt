//! The job that the words of the command line ask for.
ghost use Rattle.std.specs.Prelude.{◌≡◌, ◌≤◌, [], ◌∷◌, Some, None, map, IfOk, MatchOption, MatchResult};
ghost use Rattle.words.specs.Spellings.{Writes};
ghost use Rattle.play_words.specs.Markets.{market_word};
ghost use Rattle.cli.specs.Commands.{command_name};
ghost use Rattle.cli.specs.declared.helps.Command.TheVariants.{Match, Page, Play, Drill, SetUp, Run as Runs};
ghost use Rattle.cli.specs.declared.faults.WordFault.TheVariants as word;
ghost use Rattle.cli.specs.Options.{value_in, TellsUnknown};
ghost use Rattle.cli.specs.Words.{TellsFirst, format_word, NoFormat, NoPlansIn, IsOption, NoFile, Input, told, Asks, TellsOption, MarketSaid, FormatSaid, SaidMatch, SaidPage, SaidSetting, SaidRunning};

use crate::faults::{Fault, WordFault};
use crate::helps::Command;
use crate::options::{check_options, split_flag, unknown, value_of};
use drills::drilling::Options;
use halls::setting::Setting;
use jobs::faults::JobFault;
use jobs::matching::MarketKind;
use records::numbers::HouseNumber;
use runs::running::{Format, Run};
use std::alloc::Global;
use words::number;

// How many plans are tried at one cut where the words do not say.
const PLANS: u32 = 64;

/// What the program is asked to do.
#[derive(Clone, Copy)]
pub enum Job<'w> {
    /// To tell of one command, or of all.
    Help(Option<Command>),
    /// The file has the commands, or standard input has them.
    Match {
        market: MarketKind,
        file: Option<&'w str>,
    },
    Page {
        sectors: usize,
        file: Option<&'w str>,
    },
    Play {
        scripts: &'w [&'w str],
    },
    Drill(Options<'w>),
    SetUp(Setting<'w>),
    Run(Run<'w>),
    Show {
        file: &'w str,
    },
}

// The market of this name.
fn market_named(heap: Global, name: &str) -> Result<MarketKind, WordFault>
    ensures { MatchResult result (λ m. market_word m ≡ name.now) (TellsUnknown name.now) }
{
    match name.parse() {
        Ok(market) => Ok(market),
        Err(_) => unknown(heap, name),
    }
}

// The format of this name.
fn format_named(heap: Global, name: &str) -> Result<Format, WordFault>
    ensures { MatchResult result (λ f. format_word f ≡ name.now) (λ e. TellsUnknown name.now e × NoFormat name.now) }
{
    match name {
        "text" => Ok(Format::Text),
        "csv" => Ok(Format::Csv),
        _ => unknown(heap, name),
    }
}

// The market that an option names; a book where there is none.
fn market_or_book(heap: Global, value: Option<&str>) -> Result<MarketKind, WordFault>
    ensures { IfOk result (MarketSaid value.entry) }
{
    match value {
        None => Ok(MarketKind::Book),
        Some(name) => market_named(heap, name),
    }
}

// The format that an option names; text where there is none.
fn format_or_text(heap: Global, value: Option<&str>) -> Result<Format, WordFault>
    ensures { IfOk result (FormatSaid value.entry) }
{
    match value {
        None => Ok(Format::Text),
        Some(name) => format_named(heap, name),
    }
}

// The value of an option that has to be there; `form` names it with its value.
fn needed<'w>(words: &[&'w str], name: &str, form: &'static str) -> Result<&'w str, WordFault>
    ensures { MatchResult result (λ v. value_in name.now words.now ≡ Some v) (λ e. (e ≡ word.Missing form.entry) × (value_in name.now words.now ≡ None)) }
{
    value_of(words, name).ok_or(WordFault::Missing(form))
}

// The name of the file that has the input, where one comes first, and the words after it.
fn split_input<'w>(words: &'w [&'w str]) -> (Option<&'w str>, &'w [&'w str])
    ensures input { Input (map (λ x. x.now) words.now) result.0 }
    ensures rest { MatchOption result.0 (result.1.now ≡ words.now) (λ file. words.now ≡ file ∷ result.1.now) }
{
    match words {
        [file, rest @ ..] if !file.starts_with("--") => (Some(*file), rest),
        _ => (None, words),
    }
}

// The words after `match`.
fn match_job<'w>(heap: Global, words: &'w [&'w str]) -> Result<Job<'w>, WordFault>
    ensures asks { IfOk result (Asks (command_name Match ∷ map (λ x. x.now) words.now)) }
    ensures said { IfOk result (SaidMatch words.now) }
{
    let (file, words) = split_input(words);
    check_options(heap, words, &["--market"])?;
    let market = market_or_book(heap, value_of(words, "--market"))?;
    Ok(Job::Match { market, file })
}

// The words after `page`.
fn page_job<'w>(heap: Global, words: &'w [&'w str]) -> Result<Job<'w>, WordFault>
    ensures asks { IfOk result (Asks (command_name Page ∷ map (λ x. x.now) words.now)) }
    ensures said { IfOk result (SaidPage words.now) }
{
    let (file, words) = split_input(words);
    check_options(heap, words, &["--sectors"])?;
    let sectors = needed(words, "--sectors", "--sectors N")?;
    Ok(Job::Page {
        sectors: number(sectors, "--sectors")?,
        file,
    })
}

// The words after `play`: the names of scripts, and no options.
fn play_job<'w>(heap: Global, words: &'w [&'w str]) -> Result<Job<'w>, WordFault>
    ensures { MatchResult result (Asks (command_name Play ∷ map (λ x. x.now) words.now)) TellsOption }
{
    match words.iter().find(|word| word.starts_with("--")) {
        Some(word) => unknown(heap, word),
        None => Ok(Job::Play { scripts: words }),
    }
}

// How many plans the word asks for.
fn plans_of(word: &str) -> Result<u32, WordFault>
    ensures { MatchResult result (λ n. Writes word.now n × (1 ≤ n)) (NoPlansIn word.now) }
{
    match number(word, "--plans")? {
        0 => Err(WordFault::NoPlans),
        plans => Ok(plans),
    }
}

// The words after `drill` and the script's name: those of the pile come last.
fn drill_job<'w>(heap: Global, script: &'w str, words: &'w [&'w str]) -> Result<Job<'w>, WordFault>
    ensures { IfOk result (Asks (command_name Drill ∷ (script.now ∷ map (λ x. x.now) words.now))) }
{
    let (plans, words) = match words {
        ["--plans", value, rest @ ..] => (plans_of(value)?, rest),
        ["--plans"] => return Err(WordFault::NoNumber("--plans")),
        _ => (PLANS, words),
    };
    let pile = match words {
        [] => None,
        ["--pile", pile @ ..] => Some(pile),
        [word, ..] => return unknown(heap, word),
    };
    Ok(Job::Drill(Options {
        script,
        plans,
        pile,
    }))
}

// The words after `setup` and the file's name.
fn setup_job<'w>(heap: Global, file: &'w str, words: &[&'w str]) -> Result<Job<'w>, WordFault>
    ensures asks { IfOk result (Asks (command_name SetUp ∷ (file.now ∷ map (λ x. x.now) words.now))) }
    ensures said { IfOk result (SaidSetting words.now) }
{
    let (words, force) = split_flag(heap, words, "--force")?;
    check_options(
        heap,
        &words,
        &["--house", "--market", "--sectors", "--mirror"],
    )?;
    let house = needed(&words, "--house", "--house H")?;
    let market = needed(&words, "--market", "--market book|call")?;
    let sectors = needed(&words, "--sectors", "--sectors N")?;
    Ok(Job::SetUp(Setting {
        file,
        mirror: value_of(&words, "--mirror"),
        house: HouseNumber(number(house, "--house")?),
        market: market_named(heap, market)?,
        sectors: number(sectors, "--sectors")?,
        force,
    }))
}

// The words after `run` and the file's name.
fn run_job<'w>(heap: Global, file: &'w str, words: &[&'w str]) -> Result<Job<'w>, WordFault>
    ensures asks { IfOk result (Asks (command_name Runs ∷ (file.now ∷ map (λ x. x.now) words.now))) }
    ensures said { IfOk result (SaidRunning words.now) }
{
    check_options(
        heap,
        words,
        &["--house", "--market", "--mirror", "--format"],
    )?;
    let house = needed(words, "--house", "--house H")?;
    let market = needed(words, "--market", "--market book|call")?;
    let format = format_or_text(heap, value_of(words, "--format"))?;
    Ok(Job::Run(Run {
        file,
        mirror: value_of(words, "--mirror"),
        house: HouseNumber(number(house, "--house")?),
        market: market_named(heap, market)?,
        format,
    }))
}

// The name of the file that a command is of, and the words after it. (Two parts of one slice, of which a struct would be made anew.)
fn split_file<'w>(
    words: &'w [&'w str],
    what: &'static str,
) -> Result<(&'w str, &'w [&'w str]), WordFault>
    ensures { MatchResult result (λ r. (words.now ≡ r.0 ∷ r.1.now) × (IsOption r.0.now → ⊥)) (λ e. (e ≡ word.Missing what.entry) × NoFile (map (λ x. x.now) words.now)) }
{
    match words {
        [file, rest @ ..] if !file.starts_with("--") => Ok((*file, rest)),
        _ => Err(WordFault::Missing(what)),
    }
}

// A command that has no words after those that were read.
fn alone<'w>(heap: Global, words: &[&str], job: Job<'w>) -> Result<Job<'w>, WordFault>
    ensures { MatchResult result (λ j. (j ≡ job.entry) × (words.now ≡ [])) (TellsFirst (map (λ x. x.now) words.now)) }
{
    match words {
        [] => Ok(job),
        [word, ..] => unknown(heap, word),
    }
}

// The words after the command's name.
fn command_job<'w>(
    heap: Global,
    command: Command,
    words: &'w [&'w str],
) -> Result<Job<'w>, WordFault>
    ensures { IfOk result (Asks (command_name command ∷ map (λ x. x.now) words.now)) }
{
    match command {
        Command::Match => match_job(heap, words),
        Command::Page => page_job(heap, words),
        Command::Play => play_job(heap, words),
        Command::Drill => {
            let (script, words) = split_file(words, "the name of a SCRIPT")?;
            drill_job(heap, script, words)
        }
        Command::SetUp => {
            let (file, words) = split_file(words, "the name of a FILE")?;
            setup_job(heap, file, words)
        }
        Command::Run => {
            let (file, words) = split_file(words, "the name of a FILE")?;
            run_job(heap, file, words)
        }
        Command::Show => {
            let (file, words) = split_file(words, "the name of a FILE")?;
            alone(heap, words, Job::Show { file })
        }
    }
}

// What is wrong with the words, of this command where one was named.
fn told(why: WordFault, command: Option<Command>) -> Fault
    ensures { result ≡ told why command }
{
    match why {
        WordFault::NoMemory => Fault::Stopped(JobFault::NoMemory),
        why => Fault::Words(why, command),
    }
}

/// The job that the words after the program's name ask for.
pub fn job_of<'w>(heap: Global, words: &'w [&'w str]) -> Result<Job<'w>, Fault>
    ensures { IfOk result (Asks (map (λ x. x.now) words.now)) }
{
    let (name, words) = match words {
        [] => return Err(Fault::Words(WordFault::NoJob, None)),
        ["--help", ..] => return Ok(Job::Help(None)),
        [name, words @ ..] => (*name, words),
    };
    let Some(command) = Command::named(name) else {
        return unknown(heap, name).map_err(|why| told(why, None));
    };
    if words.contains(&"--help") {
        return Ok(Job::Help(Some(command)));
    }
    command_job(heap, command, words).map_err(|why| told(why, Some(command)))
}
