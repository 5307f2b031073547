//! What was handed out.
ghost use Rattle.std.specs.Prelude.{◌≡◌, drop, Decides};
ghost use Rattle.std.specs.List.{Contains};
ghost use Rattle.audit.specs.Checks.{Same};

use protocol::tokens::ReceiptNumbers;
use records::notices::Notice;
use runner::log::HandedOut;

// Whether the receipts are the same.
fn are_receipts_same(a: &ReceiptNumbers, b: &ReceiptNumbers) -> bool
    ensures { Decides result (a.now ≡ b.now) }
{
    a == b
}

// Whether the notices are the same.
fn are_notices_same(a: &[Notice], b: &[Notice]) -> bool
    ensures { Decides result (a.now ≡ b.now) }
{
    a == b
}

/// Whether two answers are the same.
#[tactic(auto, unfolding(crate::specs::Checks::Same))]
pub(crate) fn is_same(a: &HandedOut, b: &HandedOut) -> bool
    ensures { Decides result (Same a.now b.now) }
{
    are_receipts_same(&a.receipt, &b.receipt) && are_notices_same(&a.notices, &b.notices)
}

/// Whether the notice is among these, from a place on.
pub(crate) fn has_from(handed: &[Notice], from: usize, notice: &Notice) -> bool
    ensures { Decides result (Contains (drop from handed.now) notice.now) }
{
    match handed.get(from..) {
        Some(rest) => rest.contains(notice),
        None => false,
    }
}
