//! Somebody who holds a receipt, and asks for it again after a restart: what any caller of an exchange has from the
//! contracts of its calls alone.
//!
//! Proved: whatever receipt comes again for a page, on any device and market, wherever the power failed, is the one that was
//! held. Trusted: the toolchain.
#![tactic(auto)]

ghost use Rattle.std.specs.Prelude.{◌≡◌, IfSome};
ghost use Rattle.protocol.specs.Steps.{Shelve};
ghost use Rattle.exchange.specs.Views.{Called};
ghost use Rattle.holder.specs.Holding.{Syncs, OnePage, GetsAgain, AnsweredTwice};

use device::Device;
use exchange::state::Exchange;
use exchange::tokens::{Receipt, SyncRefusal, Ticket};
use market::interface::Market;
use protocol::promises::promises_stand;
use protocol::tokens::ReceiptNumbers;
use records::notices::Notice;

// Takes note of a receipt, and shelves it.
fn note<M: Market, D: Device>(exchange: &mut Exchange<M, D>, receipt: Receipt) -> ReceiptNumbers
    ensures numbers { result ≡ receipt.numbers }
    ensures same { Called M.Market D.Device exchange.old (Shelve receipt.numbers) exchange.new }
{
    let numbers = receipt.numbers();
    exchange.shelve(receipt);
    numbers
}

// Gives a ticket up that came back: a reset exchange takes it.
fn give_up<M: Market, D: Device>(exchange: &mut Exchange<M, D>, ticket: Ticket) {
    exchange.restart();
    match exchange.sync(ticket, &mut []) {
        Ok(receipt) => unreachable(),
        Err(SyncRefusal::Back(ticket, fault)) => unreachable(),
        Err(SyncRefusal::Spent(_)) => {}
    }
}

// Syncs the page that was just written; the receipt's numbers, if it is answered.
// (Exchange and list are lent by whoever asks: a struct of both would be made anew for each call.)
fn sync_page<M: Market, D: Device>(
    exchange: &mut Exchange<M, D>,
    ticket: Ticket,
    list: &mut [Notice],
) -> Option<ReceiptNumbers>
    ensures { IfSome result (λ n. Syncs M.Market D.Device exchange.old ticket.numbers n exchange.new) }
{
    match exchange.sync(ticket, list) {
        Ok(receipt) => Some(note(exchange, receipt)),
        Err(SyncRefusal::Back(ticket, _)) => {
            give_up(exchange, ticket);
            None
        }
        Err(SyncRefusal::Spent(_)) => None,
    }
}

// Sets the exchange up, and sends one page with this command; its receipt's numbers, if all goes well.
fn first_receipt<M: Market, D: Device>(
    exchange: &mut Exchange<M, D>,
    bytes: &[u8],
    list: &mut [Notice],
) -> Option<ReceiptNumbers>
    ensures { IfSome result (λ n. OnePage M.Market D.Device bytes.now n exchange.new) }
{
    exchange.set_up().ok()?;
    exchange.stage(bytes).ok()?;
    let ticket = exchange.write().ok()?;
    sync_page(exchange, ticket, list)
}

// Restarts the exchange, opens it, and replays one page; the receipt's numbers, if one is answered.
fn receipt_after<M: Market, D: Device>(
    exchange: &mut Exchange<M, D>,
    list: &mut [Notice],
) -> Option<ReceiptNumbers>
    ensures { IfSome result (λ n. GetsAgain M.Market D.Device exchange.old n exchange.new) }
{
    exchange.restart();
    exchange.open().ok()?;
    let receipt = exchange.replay(list).ok()??;
    Some(note(exchange, receipt))
}

/// The receipt of a page, and the one that comes again for the page that is replayed after a restart.
#[derive(Clone, Copy)]
pub struct Twice {
    pub held: ReceiptNumbers,
    pub again: ReceiptNumbers,
}

/// Sets the exchange up, sends one page, restarts, opens and replays: the receipt of the sync and that of the replay, if both
/// are answered. Where they are of one page, they are one receipt.
pub fn ask_again<M: Market, D: Device>(
    exchange: &mut Exchange<M, D>,
    bytes: &[u8],
    list: &mut [Notice],
) -> Option<Twice>
    ensures calls { IfSome result (λ t. AnsweredTwice M.Market D.Device bytes.now t.held t.again exchange.new) }
    ensures same { IfSome result (λ t. t.again.page ≡ t.held.page → t.again ≡ t.held) }
{
    promises_stand::<M>();
    let held = first_receipt(exchange, bytes, list)?;
    let again = receipt_after(exchange, list)?;
    Some(Twice { held, again })
}
