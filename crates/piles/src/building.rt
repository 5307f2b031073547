//! Piles over lent images.
ghost use Rattle.piles.specs.Builds.{HasWriteBack, IsBase, IsPart, IsPile, IsWhole, WaitsIn};
ghost use Rattle.std.specs.Prelude.{IfErr, IfOk};

use crate::{Base, DriveKind, DriveShape, PartShape, PileShape, WholeShape};
use device::offset::Offset;
use drives::{Drive, Schedule};
use either_device::Either;
use mirror::Mirror;
use std::alloc::{AllocError, Global};

/// The sectors of a drive from a base on.
pub type Part<'a> = Offset<Base<'a>>;

/// A part, or two that mirror each other.
pub type Whole<'a> = Either<Part<'a>, Mirror<Part<'a>, Part<'a>>>;

/// The sectors of a whole from a base on.
pub type Pile<'a> = Offset<Whole<'a>>;

// A type is chosen once here, from the kind in the shape: what follows is generic.
fn build_drive<'a>(
    heap: Global,
    shape: &'a DriveShape,
    image: &'a mut [u8],
) -> Result<Base<'a>, AllocError>
    ensures built { IfOk result (IsBase shape.now image.entry) }
    ensures refused { IfErr result (λ _. WaitsIn shape.now) }
{
    let fuses = shape.fuses.as_slice();
    match shape.kind {
        DriveKind::Direct => {
            let drive = Drive::direct(image);
            Ok(Base(Either::First(Schedule::new(drive, fuses))))
        }
        DriveKind::WriteBack => {
            let drive = Drive::write_back(heap, image)?;
            Ok(Base(Either::Second(Schedule::new(drive, fuses))))
        }
    }
}

fn build_part<'a>(
    heap: Global,
    shape: &'a PartShape,
    image: &'a mut [u8],
) -> Result<Part<'a>, AllocError>
    ensures built { IfOk result (IsPart shape.now image.entry) }
    ensures refused { IfErr result (λ _. WaitsIn shape.now.drive) }
{
    let drive = build_drive(heap, &shape.drive, image)?;
    Ok(Offset::new(drive, shape.base))
}

// Two images, since the two drives of a mirror are lent apart; a struct of both would only be taken apart.
fn build_whole<'a>(
    heap: Global,
    shape: &'a WholeShape,
    first: &'a mut [u8],
    second: &'a mut [u8],
) -> Result<Whole<'a>, AllocError>
    ensures built { IfOk result (IsWhole shape.now first.entry second.entry) }
    ensures refused { IfErr result (λ _. HasWriteBack shape.now) }
{
    match shape {
        WholeShape::Part(part) => Ok(Either::First(build_part(heap, part, first)?)),
        WholeShape::Mirror(a, b) => {
            let a = build_part(heap, a, first)?;
            let b = build_part(heap, b, second)?;
            Ok(Either::Second(Mirror::new(a, b)))
        }
    }
}

/// The pile of a shape, over the images of its drives. A pile of one drive leaves the second image alone. Only a write-back
/// drive takes memory, so no other pile is refused.
pub fn build<'a>(
    heap: Global,
    shape: &'a PileShape,
    first: &'a mut [u8],
    second: &'a mut [u8],
) -> Result<Pile<'a>, AllocError>
    ensures built { IfOk result (IsPile shape.now first.entry second.entry) }
    ensures refused { IfErr result (λ _. HasWriteBack shape.now.whole) }
{
    let whole = build_whole(heap, &shape.whole, first, second)?;
    Ok(Offset::new(whole, shape.base))
}
