//! A script, run.
ghost use Rattle.std.specs.Prelude.{◌≡◌, ◌+◌, ◌*◌, ◌≤◌, min, [], ◌++◌, length, vec_len, vec_capacity, MatchResult, OnOk};
ghost use Rattle.protocol.specs.Worlds.{rules_of};
ghost use Rattle.exchange.specs.Views.{view};
ghost use Rattle.runner.specs.Events.{Told};
ghost use Rattle.runner.specs.Playing.{made, most_brought, syncs, spends_ticket, spends_receipt, from_last, spends_all};
ghost use Rattle.runner.specs.Hands.{tokens_of};
ghost use Rattle.runner.specs.Tokens.{most_closing};
ghost use Rattle.runner.specs.Outcomes.{Outcome};
ghost use Rattle.runner.specs.Running.{Begun, PlayedOn, Closed, Finished};
ghost use Rattle.runner.specs.declared.running.RunFault.TheVariants.{NoMemory, Refused};
ghost use Rattle.protocol.specs.declared.phases.Phase.TheVariants.{Dark};

use crate::acts::act;
use crate::hands::Hand;
use crate::log::Entry;
use crate::script::Call;
use device::Device;
use exchange::state::Exchange;
use exchange::tokens::{Receipt, SyncRefusal, Ticket};
use market::interface::Market;
use protocol::faults::ExchangeFault;
use protocol::promises::promises_stand;
use std::alloc::{AllocError, Global};

/// What was done: every call with its answer. The entries from `closing` on are those that spent what tickets and receipts
/// were left.
// One list and a place in it: the promises are of the whole list.
#[derive(Drop)]
pub struct Run {
    pub log: Vec<Entry>,
    pub closing: usize,
}

/// Why a script was not run to its end.
#[derive(Clone, Copy)]
pub enum RunFault {
    NoMemory,
    /// The exchange could not be set up.
    Refused(ExchangeFault),
}

impl From<AllocError> for RunFault {
    ghost from_gives = { λ _ f. f ≡ NoMemory };

    fn from(_e: AllocError) -> RunFault {
        RunFault::NoMemory
    }
}

impl From<ExchangeFault> for RunFault {
    ghost from_gives = { λ e f. f ≡ Refused e };

    fn from(fault: ExchangeFault) -> RunFault {
        RunFault::Refused(fault)
    }
}

// How many entries a call may need: its own, and those that spend the tokens that there may be after it. No more: the log grows by
// doubling, and a place too many would double it too early.
fn places_for(hand: &Hand, call: &Call) -> usize
    ensures { result ≡ min (most_closing (tokens_of hand.now) + most_brought call.now + 1) 18446744073709551615 }
{
    let tickets = hand.tickets.len().saturating_mul(2);
    let closing = tickets.saturating_add(hand.receipts.len());
    closing
        .saturating_add(call.most_brought())
        .saturating_add(1)
}

// Room for the entries that a call may need.
fn make_room(log: &mut Vec<Entry>, hand: &Hand, call: &Call) -> Result<(), AllocError>
    ensures items { log.new.items ≡ log.old.items }
    ensures capacity { vec_capacity log.old ≤ vec_capacity log.new }
    ensures room { OnOk result (vec_len log.old + most_closing (tokens_of hand.now) + most_brought call.now + 1 ≤ vec_capacity log.new) }
{
    log.reserve(places_for(hand, call))
}

// Makes the calls of a script, and notes each with its answer. Also where memory gives out, the log keeps room for what spends
// the tokens that are left. (Exchange, hand and log go together here and below: the first is lent by whoever runs the script, and a
// struct of the three would be made anew for each.)
fn play<M: Market, D: Device>(
    heap: Global,
    exchange: &mut Exchange<M, D>,
    hand: &mut Hand,
    log: &mut Vec<Entry>,
    script: &[Call],
) -> Result<(), AllocError>
    requires { vec_len log.old + most_closing (tokens_of hand.old) ≤ vec_capacity log.old }
    ensures played { OnOk result (PlayedOn M.Market D.Device exchange.old hand.old log.old.items script.now exchange.new hand.new log.new.items) }
    ensures room { vec_len log.new + most_closing (tokens_of hand.new) ≤ vec_capacity log.new }
{
    for call in script {
        make_room(log, hand, call)?;
        let entry = act(heap, exchange, hand, call)?;
        log.push_reserved(entry);
    }
    Ok(())
}

// A ticket, spent: a reset exchange takes each.
fn spend<M: Market, D: Device>(exchange: &mut Exchange<M, D>, ticket: Ticket) -> Entry
    requires { exchange.old.phase ≡ Dark }
    ensures told { Told M.Market D.Device exchange.old result exchange.new }
    ensures made { made result ≡ syncs ticket.numbers 0 }
{
    let numbers = ticket.numbers();
    match exchange.sync(ticket, &mut []) {
        Ok(receipt) => unreachable(),
        Err(SyncRefusal::Back(ticket, fault)) => unreachable(),
        Err(SyncRefusal::Spent(fault)) => Entry::Sync(numbers, 0, Err(fault)),
    }
}

// Spends all tickets, each after a restart. (`Closed`, here and below, is one definition, which each step promises of its part.)
fn close_tickets<M: Market, D: Device>(
    exchange: &mut Exchange<M, D>,
    tickets: &mut Vec<Option<Ticket>>,
    log: &mut Vec<Entry>,
)
    requires { vec_len log.old + 2 * vec_len tickets.old ≤ vec_capacity log.old }
    ensures closed { Closed M.Market D.Device exchange.old log.old.items exchange.new log.new.items (from_last spends_ticket tickets.old.items) [] }
    ensures none { vec_len tickets.new ≡ 0 }
    ensures room { (vec_len log.new ≤ vec_len log.old + 2 * vec_len tickets.old) × (vec_capacity log.new ≡ vec_capacity log.old) }
{
    while let Some(held) = tickets.pop() {
        if let Some(ticket) = held {
            exchange.restart();
            let entry = spend(exchange, ticket);
            log.push_reserved(Entry::Restart);
            log.push_reserved(entry);
        }
    }
}

// Shelves all receipts.
fn close_receipts<M: Market, D: Device>(
    exchange: &mut Exchange<M, D>,
    receipts: &mut Vec<Option<Receipt>>,
    log: &mut Vec<Entry>,
)
    requires { vec_len log.old + vec_len receipts.old ≤ vec_capacity log.old }
    ensures closed { Closed M.Market D.Device exchange.old log.old.items exchange.new log.new.items (from_last spends_receipt receipts.old.items) [] }
    ensures none { vec_len receipts.new ≡ 0 }
{
    while let Some(held) = receipts.pop() {
        if let Some(receipt) = held {
            let numbers = receipt.numbers();
            exchange.shelve(receipt);
            log.push_reserved(Entry::Shelve(numbers));
        }
    }
}

// Spends every ticket and every receipt that is left, and notes it.
fn close<M: Market, D: Device>(exchange: &mut Exchange<M, D>, mut hand: Hand, log: &mut Vec<Entry>)
    requires { vec_len log.old + most_closing (tokens_of hand) ≤ vec_capacity log.old }
    ensures { Closed M.Market D.Device exchange.old log.old.items exchange.new log.new.items (spends_all (tokens_of hand)) [] }
{
    close_tickets(exchange, &mut hand.tickets, log);
    close_receipts(exchange, &mut hand.receipts, log);
    let Hand { tickets, receipts } = hand;
    tickets.destroy_empty();
    receipts.destroy_empty();
}

// The script, on an exchange that was just set up. Every token is spent, also where memory gives out.
fn run_on<M: Market, D: Device>(
    heap: Global,
    exchange: &mut Exchange<M, D>,
    script: &[Call],
) -> Result<Run, RunFault>
    ensures { MatchResult result (λ run. Begun M.Market D.Device exchange.old → Finished M.Market D.Device script.now run.log.items run.closing exchange.new) (λ f. f ≡ NoMemory) }
{
    promises_stand::<M>();
    let mut hand = Hand {
        tickets: Vec::new(heap),
        receipts: Vec::new(heap),
    };
    let mut log = Vec::new(heap);
    let played = play(heap, exchange, &mut hand, &mut log, script);
    let closing = log.len();
    close(exchange, hand, &mut log);
    played?;
    Ok(Run { log, closing })
}

/// Sets the exchange up and makes the calls of the script, with the tickets and receipts that they are answered; at the end
/// it spends those that are left. Whatever the script, and wherever the power fails, the promises hold of the log.
pub fn run_script<M: Market, D: Device>(
    heap: Global,
    exchange: &mut Exchange<M, D>,
    script: &[Call],
) -> Result<Run, RunFault>
    ensures { Outcome M.Market D.Device exchange.old script.now result exchange.new }
{
    exchange.set_up()?;
    run_on(heap, exchange, script)
}
