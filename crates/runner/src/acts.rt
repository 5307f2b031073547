//! One call of a script, made.
ghost use Rattle.std.specs.Prelude.{◌≡◌, ◌<◌, List, ◌++◌, IfOk, if◌then◌else◌, Some, None, vec_len, vec_capacity, Option, OnErr};
ghost use Rattle.protocol.specs.Steps.{Sync, Deliver, Replay};
ghost use Rattle.exchange.specs.Answers.{sync_said, replay_said, TicketBack};
ghost use Rattle.exchange.specs.Views.{Called};
ghost use Rattle.runner.specs.Events.{Told, sync_answer, replay_answer};
ghost use Rattle.runner.specs.Hands.{tokens_of};
ghost use Rattle.runner.specs.Tokens.{Tokens, held};
ghost use Rattle.runner.specs.Playing.{Answers, made, stages, writes, replays, ticket_in, receipt_in, receipt_read, ticket_back, receipt_back, after_entry, with_ticket, with_receipt, delivers, shelves};

use crate::hands::{Hand, keep, put_back, take_token};
use crate::log::{Entry, HandedOut};
use crate::script::Call;
use device::Device;
use exchange::state::Exchange;
use exchange::tokens::{DeliverRefusal, Receipt, SyncRefusal, Ticket};
use market::interface::Market;
use protocol::faults::ExchangeFault;
use records::notices::Notice;
use std::alloc::{AllocError, Global};

// What a call with a token answered, and the token, where it comes back. Two parts: the answer goes into the log, and the token
// to its place in the hand.
struct Answered<A, T> {
    answer: Result<A, ExchangeFault>,
    back: Option<T>,
}

// Each act promises `Told`, which is one definition, and asks for room where a token may come: the one call of all acts, `act`, reserves it.
// The exchange is lent by whoever runs the script, hand and log are the run's own: a struct of them would be made anew for each
// act, and name the exchange one step deeper in each clause.
fn act_stage<M: Market, D: Device>(
    heap: Global,
    exchange: &mut Exchange<M, D>,
    bytes: &[u8],
) -> Result<Entry, AllocError>
    ensures told { IfOk result (λ e. Told M.Market D.Device exchange.old e exchange.new) }
    ensures made { IfOk result (λ e. (made e ≡ stages bytes.now) × ((h : Tokens) → after_entry h 0 e ≡ h)) }
{
    let copy = bytes.to_vec(heap)?;
    let answer = exchange.stage(bytes);
    Ok(Entry::Stage(copy, answer))
}

fn act_write<M: Market, D: Device>(
    exchange: &mut Exchange<M, D>,
    tickets: &mut Vec<Option<Ticket>>,
) -> Entry
    requires { vec_len tickets.old < vec_capacity tickets.old }
    ensures told { Told M.Market D.Device exchange.old result exchange.new }
    ensures made { made result ≡ writes }
    ensures tokens { (rs : List (Option Receipt)) → record { tickets = tickets.exit.now.items; receipts = rs } ≡ after_entry (record { tickets = tickets.entry.now.items; receipts = rs }) 0 result }
{
    match exchange.write() {
        Ok(ticket) => {
            let numbers = ticket.numbers();
            tickets.push_reserved(Some(ticket));
            Entry::Write(Ok(numbers))
        }
        Err(fault) => Entry::Write(Err(fault)),
    }
}

// Syncs, and lends the whole list.
fn sync_into<M: Market, D: Device>(
    exchange: &mut Exchange<M, D>,
    ticket: Ticket,
    list: &mut Vec<Notice>,
) -> Result<Receipt, SyncRefusal>
    ensures did { Called M.Market D.Device exchange.old (Sync ticket.numbers (vec_len list.old) (sync_said result list.new.items)) exchange.new }
    ensures back { TicketBack ticket result }
{
    exchange.sync(ticket, list.as_mut_slice())
}

// Replays, and lends the whole list.
fn replay_into<M: Market, D: Device>(
    exchange: &mut Exchange<M, D>,
    list: &mut Vec<Notice>,
) -> Result<Option<Receipt>, ExchangeFault>
    ensures { Called M.Market D.Device exchange.old (Replay (vec_len list.old) (replay_said result list.new.items)) exchange.new }
{
    exchange.replay(list.as_mut_slice())
}

// A sync with a ticket that is at hand no more: what it answered, and the ticket, where it comes back.
fn sync_with<M: Market, D: Device>(
    exchange: &mut Exchange<M, D>,
    ticket: Ticket,
    mut list: Vec<Notice>,
    receipts: &mut Vec<Option<Receipt>>,
) -> Answered<HandedOut, Ticket>
    requires { vec_len receipts.old < vec_capacity receipts.old }
    ensures told { Called M.Market D.Device exchange.old (Sync ticket.numbers (vec_len list) (sync_answer result.answer)) exchange.new }
    ensures receipts { receipts.new.items ≡ receipts.old.items ++ receipt_in result.answer }
    ensures back { result.back ≡ (if ticket_back result.answer then Some ticket else None) }
{
    match sync_into(exchange, ticket, &mut list) {
        Ok(receipt) => Answered {
            answer: Ok(keep(receipt, list, receipts)),
            back: None,
        },
        Err(SyncRefusal::Back(ticket, fault)) => Answered {
            answer: Err(fault),
            back: Some(ticket),
        },
        Err(SyncRefusal::Spent(fault)) => Answered {
            answer: Err(fault),
            back: None,
        },
    }
}

fn act_sync<M: Market, D: Device>(
    heap: Global,
    exchange: &mut Exchange<M, D>,
    hand: &mut Hand,
    number: usize,
    room: usize,
) -> Result<Entry, AllocError>
    requires { vec_len hand.old.receipts < vec_capacity hand.old.receipts }
    ensures told { IfOk result (λ e. Told M.Market D.Device exchange.old e exchange.new) }
    ensures made { IfOk result (λ e. (made e ≡ with_ticket (held hand.old.tickets.items number) room) × (tokens_of hand.new ≡ after_entry (tokens_of hand.old) number e)) }
    ensures left { OnErr result (tokens_of hand.new ≡ tokens_of hand.old) }
{
    let list = vec![in heap; Notice::default(); room]?;
    let Some(ticket) = take_token(&mut hand.tickets, number) else {
        return Ok(Entry::Spent);
    };
    let numbers = ticket.numbers();
    let Answered { answer, back } = sync_with(exchange, ticket, list, &mut hand.receipts);
    put_back(&mut hand.tickets, number, back);
    Ok(Entry::Sync(numbers, room, answer))
}

// A delivery of a receipt that is at hand no more.
fn deliver_with<M: Market, D: Device>(
    exchange: &mut Exchange<M, D>,
    receipt: Receipt,
) -> Answered<(), Receipt>
    ensures told { Called M.Market D.Device exchange.old (Deliver receipt.numbers result.answer) exchange.new }
    ensures back { result.back ≡ (if receipt_back result.answer then Some receipt else None) }
{
    match exchange.deliver(receipt) {
        Ok(()) => Answered {
            answer: Ok(()),
            back: None,
        },
        Err(refusal) => {
            let DeliverRefusal { receipt, fault } = refusal;
            Answered {
                answer: Err(fault),
                back: Some(receipt),
            }
        }
    }
}

// An act takes the half of the hand that it needs, so that the other half is lent to nobody; its clause holds whatever is
// there.
fn act_deliver<M: Market, D: Device>(
    exchange: &mut Exchange<M, D>,
    receipts: &mut Vec<Option<Receipt>>,
    number: usize,
) -> Entry
    ensures told { Told M.Market D.Device exchange.old result exchange.new }
    ensures made { made result ≡ with_receipt delivers (held receipts.old.items number) }
    ensures tokens { (ts : List (Option Ticket)) → record { tickets = ts; receipts = receipts.new.items } ≡ after_entry (record { tickets = ts; receipts = receipts.old.items }) number result }
{
    let Some(receipt) = take_token(receipts, number) else {
        return Entry::Spent;
    };
    let numbers = receipt.numbers();
    let Answered { answer, back } = deliver_with(exchange, receipt);
    put_back(receipts, number, back);
    Entry::Deliver(numbers, answer)
}

fn act_shelve<M: Market, D: Device>(
    exchange: &mut Exchange<M, D>,
    receipts: &mut Vec<Option<Receipt>>,
    number: usize,
) -> Entry
    ensures told { Told M.Market D.Device exchange.old result exchange.new }
    ensures made { made result ≡ with_receipt shelves (held receipts.old.items number) }
    ensures tokens { (ts : List (Option Ticket)) → record { tickets = ts; receipts = receipts.new.items } ≡ after_entry (record { tickets = ts; receipts = receipts.old.items }) number result }
{
    let Some(receipt) = take_token(receipts, number) else {
        return Entry::Spent;
    };
    let numbers = receipt.numbers();
    exchange.shelve(receipt);
    Entry::Shelve(numbers)
}

fn act_replay<M: Market, D: Device>(
    heap: Global,
    exchange: &mut Exchange<M, D>,
    receipts: &mut Vec<Option<Receipt>>,
    room: usize,
) -> Result<Entry, AllocError>
    requires { vec_len receipts.old < vec_capacity receipts.old }
    ensures told { IfOk result (λ e. Told M.Market D.Device exchange.old e exchange.new) }
    ensures made { IfOk result (λ e. made e ≡ replays room) }
    ensures tokens { IfOk result (λ e. (ts : List (Option Ticket)) → record { tickets = ts; receipts = receipts.new.items } ≡ after_entry (record { tickets = ts; receipts = receipts.old.items }) 0 e) }
    ensures left { OnErr result (receipts.new.items ≡ receipts.old.items) }
{
    let mut list = vec![in heap; Notice::default(); room]?;
    // A match: what a closure writes into the hand is lost to the proof, as that of `map_err` in the exchange is.
    let answer = match replay_into(exchange, &mut list) {
        Ok(Some(receipt)) => Ok(Some(keep(receipt, list, receipts))),
        Ok(None) => Ok(None),
        Err(fault) => Err(fault),
    };
    Ok(Entry::Replay(room, answer))
}

/// Makes one call of a script.
pub(crate) fn act<M: Market, D: Device>(
    heap: Global,
    exchange: &mut Exchange<M, D>,
    hand: &mut Hand,
    call: &Call,
) -> Result<Entry, AllocError>
    ensures told { IfOk result (λ e. Told M.Market D.Device exchange.old e exchange.new) }
    ensures answers { IfOk result (λ e. Answers (tokens_of hand.old) call.now e (tokens_of hand.new)) }
    ensures left { OnErr result (tokens_of hand.new ≡ tokens_of hand.old) }
{
    hand.tickets.reserve(1)?;
    hand.receipts.reserve(1)?;
    match call {
        Call::Stage(bytes) => act_stage(heap, exchange, bytes),
        Call::Write => Ok(act_write(exchange, &mut hand.tickets)),
        Call::Sync { ticket, room } => act_sync(heap, exchange, hand, *ticket, *room),
        Call::Deliver(receipt) => Ok(act_deliver(exchange, &mut hand.receipts, *receipt)),
        Call::Shelve(receipt) => Ok(act_shelve(exchange, &mut hand.receipts, *receipt)),
        Call::Snapshot => Ok(Entry::Snapshot(exchange.snapshot())),
        Call::Restart => {
            exchange.restart();
            Ok(Entry::Restart)
        }
        Call::Open => Ok(Entry::Open(exchange.open())),
        Call::Replay { room } => act_replay(heap, exchange, &mut hand.receipts, *room),
    }
}
