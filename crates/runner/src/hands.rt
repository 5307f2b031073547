//! Tickets and receipts at hand.
ghost use Rattle.std.specs.Prelude.{◌≡◌, ◌+◌, ◌-◌, ◌<◌, ◌≤◌, [], ◌∷◌, ◌++◌, take, Some, None, vec_len, vec_capacity};
ghost use Rattle.runner.specs.Tokens.{held, cleared, returned};

use crate::log::HandedOut;
use exchange::tokens::{Receipt, Ticket};
use records::notices::Notice;

/// All tokens that were answered, each at its number less 1, none where it is gone. Scripts name tokens by these numbers,
/// which are counted on from 1: no map is needed.
pub(crate) struct Hand {
    pub(crate) tickets: Vec<Option<Ticket>>,
    pub(crate) receipts: Vec<Option<Receipt>>,
}

// Takes the token with this number, if it is at hand.
pub(crate) fn take_token<T>(tokens: &mut Vec<Option<T>>, number: usize) -> Option<T>
    ensures taken { result ≡ held tokens.old.items number }
    ensures rest { tokens.new.items ≡ cleared tokens.old.items number }
    ensures room { (vec_len tokens.new ≡ vec_len tokens.old) × (vec_capacity tokens.new ≡ vec_capacity tokens.old) }
{
    let place = number.checked_sub(1)?;
    tokens.get_mut(place)?.take()
}

// Puts a token that was taken under this number back, if it came back.
pub(crate) fn put_back<T>(tokens: &mut Vec<Option<T>>, number: usize, back: Option<T>)
    requires gone { held tokens.old.items number ≡ None }
    requires there { (1 ≤ number) × (number ≤ vec_len tokens.old) }
    ensures { tokens.new.items ≡ returned back tokens.old.items number }
{
    if let Some(token) = back {
        // A match: a token that is put aside must be seen to be none, and `let .. else` leaves it to be dropped.
        match tokens[number - 1].replace(token) {
            None => {}
            Some(_) => unreachable(),
        }
    }
}

// Keeps a receipt at hand, and what came with it in the front of the list.
pub(crate) fn keep(
    receipt: Receipt,
    mut list: Vec<Notice>,
    receipts: &mut Vec<Option<Receipt>>,
) -> HandedOut
    requires { vec_len receipts.old < vec_capacity receipts.old }
    ensures receipt { result.receipt ≡ receipt.numbers }
    ensures notices { result.notices.items ≡ take receipt.numbers.notices list.items }
    ensures kept { receipts.new.items ≡ receipts.old.items ++ (Some receipt ∷ []) }
{
    let numbers = receipt.numbers();
    list.truncate(numbers.notices as usize);
    receipts.push_reserved(Some(receipt));
    HandedOut {
        receipt: numbers,
        notices: list,
    }
}
