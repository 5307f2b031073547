//! How long an image is.
ghost use Rattle.std.specs.Prelude.{◌≡◌, ◌*◌, false, true, MatchOption};
ghost use Rattle.journal.specs.Places.{size_good};
ghost use Rattle.halls.specs.Sizes.{NoImage};

use file_device::calls::FILE_SECTOR;
use image::sectors::MARKED_SECTOR;

/// How many sectors an image has: 9 to 4,096.
#[derive(Clone, Copy)]
pub struct ImageSize {
    sectors: usize,
    ghost fits: { size_good sectors ≡ true },
}

impl ImageSize {
    /// None where an exchange cannot lie on so many sectors.
    pub fn new(sectors: usize) -> Option<ImageSize>
        ensures { MatchOption result (size_good sectors ≡ false) (λ size. size.sectors ≡ sectors) }
    {
        if (9..=4096).contains(&sectors) {
            Some(ImageSize { sectors })
        } else {
            None
        }
    }

    /// The size of a file of so many bytes, where it is that of an image.
    pub fn of_length(bytes: u64) -> Option<ImageSize>
        ensures { MatchOption result (NoImage bytes) (λ size. 512 * size.sectors ≡ bytes) }
    {
        let size = ImageSize::new((bytes / FILE_SECTOR) as usize)?;
        (size.file_bytes() == bytes).then_some(size)
    }

    /// How many sectors that is.
    pub fn sectors(self) -> usize
        ensures { result ≡ self.sectors }
    {
        self.sectors
    }

    /// The bytes of the file.
    pub fn file_bytes(self) -> u64
        ensures { result ≡ 512 * self.sectors }
    {
        FILE_SECTOR * self.sectors as u64
    }

    /// The bytes of the image in memory.
    pub fn image_bytes(self) -> usize
        ensures { result ≡ 513 * self.sectors }
    {
        MARKED_SECTOR * self.sectors
    }
}
