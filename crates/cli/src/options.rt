//! The options of a command: pairs of a name and a value, in any order.
ghost use Rattle.std.specs.Prelude.{◌≡◌, ◌-◌, not, length, IsErrAnd, IfOk, MatchResult};
ghost use Rattle.cli.specs.Options.{value_in, named, others, Options, WrongOptions, SplitOff, TellsUnknown, TellsTwice, TellsNoValue};

use crate::faults::WordFault;
use std::alloc::{AllocError, Global};

/// A word that may not stand where it does.
pub(crate) fn unknown<T>(heap: Global, word: &str) -> Result<T, WordFault>
    ensures { IsErrAnd result (TellsUnknown word.now) }
{
    Err(WordFault::Unknown(String::from_str(heap, word)?))
}

fn twice(heap: Global, name: &str) -> Result<(), WordFault>
    ensures { IsErrAnd result (TellsTwice name.now) }
{
    Err(WordFault::Twice(String::from_str(heap, name)?))
}

fn without_value(heap: Global, name: &str) -> Result<(), WordFault>
    ensures { IsErrAnd result (TellsNoValue name.now) }
{
    Err(WordFault::NoValue(String::from_str(heap, name)?))
}

/// The value of the option of this name; none where it is not there.
pub(crate) fn value_of<'w>(words: &[&'w str], name: &str) -> Option<&'w str>
    ensures { result ≡ value_in name.now words.now }
{
    match words {
        [found, value, ..] if *found == name => Some(*value),
        [_, _, rest @ ..] => value_of(rest, name),
        _ => None,
    }
}

// Whether the word is one of these names.
fn is_named(names: &[&str], word: &str) -> bool
    ensures { result ≡ named word.now names.now }
{
    names.iter().any(|name| *name == word)
}

/// Sees that the words are pairs of a name and its value, each of these names at most once.
pub(crate) fn check_options(heap: Global, words: &[&str], names: &[&str]) -> Result<(), WordFault>
    ensures { MatchResult result (λ _. Options names.now words.now) (WrongOptions names.now words.now) }
{
    let Some((name, rest)) = words.split_first() else {
        return Ok(());
    };
    if !is_named(names, name) {
        return unknown(heap, name);
    }
    let Some((_value, rest)) = rest.split_first() else {
        return without_value(heap, name);
    };
    if value_of(rest, name).is_some() {
        return twice(heap, name);
    }
    check_options(heap, rest, names)
}

// The words that are not this one.
fn words_but<'w>(heap: Global, words: &[&'w str], flag: &str) -> Result<Vec<&'w str>, AllocError>
    ensures { IfOk result (λ rest. rest.items ≡ others flag.now words.now) }
{
    words
        .iter()
        .copied()
        .filter(|word| *word != flag)
        .collect(heap)
}

/// The words without a flag, and whether it was there.
pub(crate) fn split_flag<'w>(
    heap: Global,
    words: &[&'w str],
    flag: &str,
) -> Result<(Vec<&'w str>, bool), WordFault>
    ensures { MatchResult result (λ r. SplitOff flag.now words.now r.0.items r.1) (TellsTwice flag.now) }
{
    let rest = words_but(heap, words, flag)?;
    match words.len().saturating_sub(rest.len()) {
        0 => Ok((rest, false)),
        1 => Ok((rest, true)),
        _ => Err(WordFault::Twice(String::from_str(heap, flag)?)),
    }
}
