//! Whether an image holds the exchange that is to run.
ghost use Rattle.runs.specs.Owners.{Judged, JudgedIn};

use halls::owners::{Owner, owner_of};
use journal::slots::Slot;

// Whether one of two snapshots is the owner's; where both are others', whose.
fn judge(owner: Owner, zero: Option<Owner>, one: Option<Owner>) -> Result<bool, Owner>
    ensures { Judged owner zero one result }
{
    match (zero, one) {
        (None, None) => Ok(false),
        (Some(x), _) if x == owner => Ok(true),
        (_, Some(y)) if y == owner => Ok(true),
        (Some(x), _) => Err(x),
        (None, Some(y)) => Err(y),
    }
}

/// Whether an image holds an exchange of this owner; where it holds one of another's alone, whose.
pub(crate) fn is_owned(image: &[u8], owner: Owner) -> Result<bool, Owner>
    ensures { JudgedIn owner image.now result }
{
    judge(
        owner,
        owner_of(image, Slot::Zero),
        owner_of(image, Slot::One),
    )
}
