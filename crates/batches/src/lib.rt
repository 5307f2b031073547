//! A page of commands in a market: its notices, counted, over the front of a lent list.
//!
//! Proved: the market is then in the state after these commands, the front of the list has just the notices that they give,
//! numbered on from those before, and the rest of the list is as it was. Trusted: the toolchain.
#![tactic(auto)]

ghost use Rattle.std.specs.Prelude.{◌≡◌, ◌+◌, ◌*◌, ◌^◌, ◌<◌, ◌≤◌, length};
ghost use Rattle.market.specs.Lists.{over};
ghost use Rattle.records.specs.Notices.{counted};
ghost use Rattle.batches.specs.Given.{after_all, given_by};

use market::interface::Market;
use records::commands::Command;
use records::counting::count_front;
use records::notices::Notice;
use records::numbers::NoticeNumber;

// One command: its notices come over the list from `at` on; how many they are.
// The list is lent, and so is the market: nothing allocates on the way of a call.
fn apply_one<M: Market>(market: &mut M, command: &Command, list: &mut [Notice]) -> usize
    requires { 64 ≤ length list.old }
    ensures state { M.means market.new ≡ (M.step (M.means market.old) command.now).0 }
    ensures number { result ≡ length (M.step (M.means market.old) command.now).1 }
    ensures list { list.new ≡ over list.old (M.step (M.means market.old) command.now).1 }
    ensures few { result ≤ 64 }
{
    match market.apply(command, list) {
        Ok(n) => n,
        Err(_) => unreachable(),
    }
}

// All commands, their notices not yet counted.
// The list is lent, and so is the market: nothing allocates on the way of a call.
fn apply_all<M: Market>(market: &mut M, commands: &[Command], list: &mut [Notice]) -> usize
    requires { 64 * length commands.now ≤ length list.old }
    ensures state { M.means market.new ≡ after_all M.step (M.means market.old) commands.now }
    ensures number { result ≡ length (given_by M.step (M.means market.old) commands.now) }
    ensures list { list.new ≡ over list.old (given_by M.step (M.means market.old) commands.now) }
    ensures few { result ≤ 64 * length commands.now }
{
    let mut at = 0;
    for command in commands {
        at += apply_one(market, command, &mut list[at..]);
    }
    at
}

/// Applies the commands, and counts their notices on from those before.
// The list is lent, and so is the market: nothing allocates on the way of a call.
pub fn apply_page<M: Market>(
    market: &mut M,
    commands: &[Command],
    before: NoticeNumber,
    list: &mut [Notice],
) -> usize
    requires room { 64 * length commands.now ≤ length list.old }
    requires fits { before.0 + 64 * length commands.now < 2 ^ 64 }
    ensures state { M.means market.new ≡ after_all M.step (M.means market.old) commands.now }
    ensures number { result ≡ length (given_by M.step (M.means market.old) commands.now) }
    ensures list { list.new ≡ over list.old (counted before.0 (given_by M.step (M.means market.old) commands.now)) }
    ensures few { result ≤ 64 * length commands.now }
{
    let n = apply_all(market, commands, list);
    count_front(list, n, before);
    n
}
