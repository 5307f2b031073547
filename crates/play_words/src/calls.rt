//! Calls from words.
ghost use Rattle.std.specs.Prelude.{map, IfOk, MatchResult};
ghost use Rattle.play_words.specs.Spellings.{Stages, Lends, LendsNone, SpellsCall, SpellsBytes};

use crate::faults::PlayFault;
use runner::script::Call;
use std::alloc::Global;
use words::{command_of, number};

/// How many notices the list that is lent has room for, where a script does not say.
pub const ROOM: usize = 1024;

// The bytes that the hex digits are, two a byte.
#[tactic(auto, using(crate::proofs::Spelled::spelled))]
fn bytes_of(heap: Global, text: &str) -> Result<Vec<u8>, PlayFault>
    ensures { IfOk result (λ v. SpellsBytes text.now v.items) }
{
    Ok(hex::decode(heap, text)?)
}

// The bytes to stage: those of a command's record, or any.
fn stage_of(heap: Global, words: &[&str]) -> Result<Vec<u8>, PlayFault>
    ensures { IfOk result (λ v. Stages (map (λ x. x.now) words.now) v.items) }
{
    match words {
        ["hex", digits] => bytes_of(heap, digits),
        ["hex", ..] => Err(PlayFault::Form("stage hex BYTES")),
        _ => {
            let command = command_of(words)?;
            let record = command.encode();
            Ok(Vec::from_slice(heap, record.as_bytes())?)
        }
    }
}

// The room of the list that is lent.
fn room_of(words: &[&str], form: &'static str) -> Result<usize, PlayFault>
    ensures { MatchResult result (λ n. Lends (map (λ x. x.now) words.now) n) (λ _. LendsNone (map (λ x. x.now) words.now)) }
{
    match words {
        [] => Ok(ROOM),
        [length] => Ok(number(length, "length of the list")?),
        _ => Err(PlayFault::Form(form)),
    }
}

/// The call that the words spell.
pub fn call_of(heap: Global, words: &[&str]) -> Result<Call, PlayFault>
    ensures { IfOk result (SpellsCall (map (λ x. x.now) words.now)) }
{
    match words {
        ["stage", words @ ..] => Ok(Call::Stage(stage_of(heap, words)?)),
        ["write"] => Ok(Call::Write),
        ["sync", ticket, words @ ..] => {
            let ticket = number(ticket, "ticket")?;
            let room = room_of(words, "sync TICKET [LENGTH]")?;
            Ok(Call::Sync { ticket, room })
        }
        ["deliver", receipt] => Ok(Call::Deliver(number(receipt, "receipt")?)),
        ["shelve", receipt] => Ok(Call::Shelve(number(receipt, "receipt")?)),
        ["snapshot"] => Ok(Call::Snapshot),
        ["restart"] => Ok(Call::Restart),
        ["open"] => Ok(Call::Open),
        ["replay", words @ ..] => {
            let room = room_of(words, "replay [LENGTH]")?;
            Ok(Call::Replay { room })
        }
        _ => Err(form_of(words)),
    }
}

// What is wrong with words that are no call.
fn form_of(words: &[&str]) -> PlayFault {
    match words {
        ["sync", ..] => PlayFault::Form("sync TICKET [LENGTH]"),
        ["deliver", ..] => PlayFault::Form("deliver RECEIPT"),
        ["shelve", ..] => PlayFault::Form("shelve RECEIPT"),
        ["write", ..] => PlayFault::Form("write"),
        ["snapshot", ..] => PlayFault::Form("snapshot"),
        ["restart", ..] => PlayFault::Form("restart"),
        ["open", ..] => PlayFault::Form("open"),
        _ => PlayFault::Unknown,
    }
}
