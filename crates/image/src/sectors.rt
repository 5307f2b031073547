//! Sectors of an image. A sector or a write past the image is left alone.
ghost use Rattle.std.specs.Prelude.{◌≡◌, ◌+◌, ◌≤◌, length};
ghost use Rattle.std.specs.Option.{option_map};
ghost use Rattle.image.specs.Image.{bytes_of, list_put_at, seen, size_of};
ghost use Rattle.image.specs.Waiting.{landed, put_down};

use crate::{Fate, Pending};
use device::Sector;

/// The bytes of a sector in an image: its mark, and its 512 bytes.
pub const MARKED_SECTOR: usize = 513;

/// An image has at most so many sectors; what lies past them is unused.
pub const MOST_SECTORS: usize = 65536;

/// How many sectors an image has.
pub fn count(image: &[u8]) -> usize
    ensures { result ≡ size_of image.now }
{
    (image.len() / MARKED_SECTOR).min(MOST_SECTORS)
}

// Puts a readable sector down at a place of the image.
fn put_at(image: &mut [u8], at: usize, bytes: &Sector)
    requires { at + 513 ≤ length image.old }
    ensures { image.new ≡ list_put_at image.old at bytes.now }
{
    image[at] = 0;
    image[at + 1..at + MARKED_SECTOR].copy_from_slice(bytes);
}

/// The bytes of a sector, lent, or none where it is torn or lies past the image.
#[tactic(auto, unfolding(crate::specs::Image::reading))]
pub fn lend(image: &[u8], sector: usize) -> Option<&Sector>
    ensures { option_map (λ b. b.now) result ≡ bytes_of (seen image.now sector) }
{
    if sector >= count(image) {
        return None;
    }
    let at = sector * MARKED_SECTOR;
    if image[at] != 0 {
        return None;
    }
    <&Sector>::try_from(&image[at + 1..at + MARKED_SECTOR]).ok()
}

/// The bytes of a sector, or none where it is torn or lies past the image.
pub fn find(image: &[u8], sector: usize) -> Option<Sector>
    ensures { result ≡ bytes_of (seen image.now sector) }
{
    lend(image, sector).copied()
}

/// Puts a write down.
pub fn lower(image: &mut [u8], write: &Pending)
    ensures { image.new ≡ put_down image.old write.now }
{
    if write.sector < count(image) {
        put_at(image, write.sector * MARKED_SECTOR, &write.bytes);
    }
}

/// What a cut makes of a write.
pub fn land(image: &mut [u8], fate: Fate, write: &Pending)
    ensures { image.new ≡ landed fate image.old write.now }
{
    match fate {
        Fate::Dropped => {}
        Fate::Torn => {
            if write.sector < count(image) {
                image[write.sector * MARKED_SECTOR] = 1;
            }
        }
        Fate::Kept => lower(image, write),
    }
}
