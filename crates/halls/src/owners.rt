//! Whose snapshots an image holds.
ghost use Rattle.std.specs.Prelude.{◌≡◌, IfOk};
ghost use Rattle.journal.specs.Slots.{header_place};
ghost use Rattle.journal.specs.declared.slots.Slot.TheVariants.{Zero, One};
ghost use Rattle.halls.specs.Owners.{owner_at, OwnersSo};

use image::sectors::find;
use journal::slots::Slot;
use records::headers::Header;
use records::numbers::HouseNumber;
use std::alloc::{AllocError, Global};

/// Whose an exchange is: its house, and its market by its code.
#[derive(Clone, Copy, PartialEq, Eq)]
pub struct Owner {
    pub house: HouseNumber,
    pub code: u16,
}

/// Whose the snapshot of a slot is, where its header is a good one.
pub fn owner_of(image: &[u8], slot: Slot) -> Option<Owner>
    ensures { result ≡ owner_at image.now (header_place slot) }
{
    let header = Header::decode(&find(image, slot.header_sector())?)?;
    Some(Owner {
        house: header.house,
        code: header.market,
    })
}

// The owners of two snapshots, each once.
fn each_once(
    heap: Global,
    zero: Option<Owner>,
    one: Option<Owner>,
) -> Result<Vec<Owner>, AllocError>
    ensures { IfOk result (λ owners. OwnersSo zero one owners.items) }
{
    match (zero, one) {
        (None, None) => Ok(Vec::new(heap)),
        (Some(x), Some(y)) if x != y => Vec::from_slice(heap, &[x, y]),
        (Some(x), _) => Vec::from_slice(heap, &[x]),
        (None, Some(y)) => Vec::from_slice(heap, &[y]),
    }
}

/// Whose the snapshots of an image are, each once.
pub(crate) fn owners_of(heap: Global, image: &[u8]) -> Result<Vec<Owner>, AllocError>
    ensures { IfOk result (λ owners. OwnersSo (owner_at image.now (header_place Zero)) (owner_at image.now (header_place One)) owners.items) }
{
    let (zero, one) = (owner_of(image, Slot::Zero), owner_of(image, Slot::One));
    each_once(heap, zero, one)
}
