//! The calls that a drill makes after a script's own: they open what the cut left, twice, and then make a short next day.
ghost use Rattle.std.specs.Prelude.{◌≡◌, ◌+◌, ◌*◌, ◌++◌, IfOk, OnOk, count_by};
ghost use Rattle.drill_parts.specs.Tails.{each_to, opening, next_day, StagesOrder, Followed, is_write, may_answer};
ghost use Rattle.runner.specs.declared.script.Call.{Call as Made};
ghost use Rattle.runner.specs.declared.script.Call.TheVariants as call;

use records::commands::{Command, Side};
use records::numbers::{Lots, Member, Price};
use runner::script::Call;
use std::alloc::{AllocError, Global};

// The room of the lists that are lent, as in a script that names none.
const ROOM: usize = 1024;

/// How many calls write a page.
pub fn count_writes(calls: &[Call]) -> usize
    ensures { result ≡ count_by is_write calls.now }
{
    calls
        .iter()
        .filter(|call| matches!(call, Call::Write))
        .count()
}

// How many calls may answer a receipt.
fn count_answers(calls: &[Call]) -> usize
    ensures { result ≡ count_by may_answer calls.now }
{
    calls
        .iter()
        .filter(|call| matches!(call, Call::Sync { .. } | Call::Replay { .. }))
        .count()
}

// Forgets what is not on the device, and opens what is: so many replays come to the journal's end.
fn push_opening(calls: &mut Vec<Call>, replays: usize) -> Result<(), AllocError>
    ensures { OnOk result (calls.new.items ≡ calls.old.items ++ opening replays) }
{
    calls.push(Call::Restart)?;
    calls.push(Call::Open)?;
    for _replay in 0..replays {
        calls.push(Call::Replay { room: ROOM })?;
    }
    Ok(())
}

// Delivers every receipt that may be at hand.
fn push_deliveries(calls: &mut Vec<Call>, receipts: usize) -> Result<(), AllocError>
    ensures { OnOk result (calls.new.items ≡ calls.old.items ++ each_to call.Deliver receipts) }
{
    for receipt in 0..receipts {
        calls.push(Call::Deliver(receipt + 1))?;
    }
    Ok(())
}

// Tries every ticket that may be at hand. One that is not the written page's comes back, so the newest is the one that is taken.
fn push_syncs(calls: &mut Vec<Call>, tickets: usize) -> Result<(), AllocError>
    ensures { OnOk result (calls.new.items ≡ calls.old.items ++ each_to (λ t. call.Sync t 1024) tickets) }
{
    for ticket in 0..tickets {
        calls.push(Call::Sync {
            ticket: ticket + 1,
            room: ROOM,
        })?;
    }
    Ok(())
}

// An order, staged.
fn order(heap: Global) -> Result<Call, AllocError>
    ensures { IfOk result StagesOrder }
{
    let command = Command::Enter {
        member: Member(1),
        side: Side::Buy,
        price: Price(1),
        lots: Lots(1),
    };
    let record = command.encode();
    Ok(Call::Stage(Vec::from_slice(heap, record.as_bytes())?))
}

// One order more on a page of its own, synced with the one ticket that is its, and an opening.
fn push_next_day(heap: Global, calls: &mut Vec<Call>, pages: usize) -> Result<(), AllocError>
    ensures { OnOk result ((stage : Made) × StagesOrder stage × (calls.new.items ≡ calls.old.items ++ next_day pages stage)) }
{
    let replays = pages.checked_add(1).ok_or(AllocError)?;
    calls.push(order(heap)?)?;
    calls.push(Call::Write)?;
    push_syncs(calls, pages)?;
    push_opening(calls, replays)
}

/// Adds the tail of a script to its calls. Each page that a script writes is a replay of an opening, and one more finds the
/// journal's end. (A sum that does not fit is told as memory that gave out: there were no room for so many calls.)
pub fn push_tail(heap: Global, calls: &mut Vec<Call>) -> Result<(), AllocError>
    ensures { OnOk result (Followed calls.old.items (count_by is_write calls.old.items + 1) (count_by may_answer calls.old.items + 2 * (count_by is_write calls.old.items + 1)) calls.new.items) }
{
    let pages = count_writes(calls).checked_add(1).ok_or(AllocError)?;
    let replays = pages.checked_mul(2).ok_or(AllocError)?;
    let receipts = count_answers(calls).checked_add(replays).ok_or(AllocError)?;
    push_opening(calls, pages)?;
    push_opening(calls, pages)?;
    push_deliveries(calls, receipts)?;
    calls.push(Call::Snapshot)?;
    push_next_day(heap, calls, pages)
}
