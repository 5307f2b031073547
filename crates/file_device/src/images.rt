//! The image of a file, read into memory.
ghost use Rattle.std.specs.Prelude.{◌≡◌, length};

use crate::calls::FILE_SECTOR;
use image::sectors::MARKED_SECTOR;
use std::fs::File;
use std::os::unix::fs::FileExt;

// Reads a sector of the file to its place in the image; one that cannot be read is torn.
fn load_sector(file: &File, sector: u64, marked: &mut [u8])
    ensures { length marked.new ≡ length marked.old }
{
    let Some((mark, bytes)) = marked.split_first_mut() else {
        return;
    };
    let read = file.read_exact_at(bytes, sector.wrapping_mul(FILE_SECTOR));
    *mark = u8::from(read.is_err());
}

/// Fills the image with what the file's sectors read as. A sector that cannot be read is torn.
pub fn load_image(file: &File, image: &mut [u8])
    ensures { length image.new ≡ length image.old }
{
    for (sector, marked) in (0u64..).zip(image.chunks_exact_mut(MARKED_SECTOR)) {
        load_sector(file, sector, marked);
    }
}
