//! Which notices the receipts that were delivered cover.
ghost use Rattle.std.specs.Prelude.{◌≡◌, ◌<◌, ◌^◌, ◌≤◌, Decides, MatchOption};
ghost use Rattle.std.specs.List.{All, Contains};
ghost use Rattle.protocol.specs.Steps.{last_notice};
ghost use Rattle.audit.specs.Delivered.{Covers, CoveredTo};

use protocol::tokens::ReceiptNumbers;

/// The last notice of a receipt, one below its first where it has none.
// In 128 bits: a log may hold any numbers.
pub(crate) fn last_notice(receipt: &ReceiptNumbers) -> u128
    ensures value { result ≡ last_notice receipt.now }
    ensures bound { result < 2 ^ 65 }
{
    (u128::from(receipt.notice.0) + u128::from(receipt.notices)).saturating_sub(1)
}

// Whether the notice with this number lies in the receipt.
fn covers(receipt: &ReceiptNumbers, number: u128) -> bool
    ensures { Decides result (Covers number receipt.now) }
{
    u128::from(receipt.notice.0) <= number && number <= last_notice(receipt)
}

// A receipt in which the notice with this number lies.
fn cover_of(receipts: &[ReceiptNumbers], number: u128) -> Option<&ReceiptNumbers>
    ensures { MatchOption result (All (λ r. Covers number r → ⊥) receipts.now) (λ r. Contains receipts.now r.now × Covers number r.now) }
{
    receipts.iter().find(|r| covers(r, number))
}

/// Whether the receipts cover every notice number from 1 to this one.
pub(crate) fn is_covered(receipts: &[ReceiptNumbers], highest: u128) -> bool
    ensures { Decides result (CoveredTo receipts.now highest) }
{
    let mut next = 1;
    while next <= highest {
        let Some(receipt) = cover_of(receipts, next) else {
            return false;
        };
        next = last_notice(receipt) + 1;
    }
    true
}
