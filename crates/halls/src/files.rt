//! Files by their names: those that an exchange is set up on, and those that hold an image.
ghost use Rattle.std.specs.Prelude.{◌≡◌, ◌≢◌, ◌*◌, ℕ, true, IfOk, vec_len};
ghost use Rattle.std.specs.IoError.{error_kind};
ghost use Rattle.journal.specs.Places.{size_good};
ghost use Rattle.halls.specs.Files.{SaidOf, SaidOfMade};

use crate::faults::HallFault;
use crate::sizes::ImageSize;
use file_device::load_image;
use std::alloc::Global;
use std::fs::{File, Metadata, OpenOptions};
use std::os::unix::fs::MetadataExt;
use std::{fs, io};

/// What the system says of the file of this name.
pub fn fault_of(heap: Global, name: &str, error: io::Error) -> HallFault
    ensures { SaidOf name.now (error_kind error) result }
{
    let Ok(name) = String::from_str(heap, name) else {
        return HallFault::NoMemory;
    };
    match error.kind() {
        io::ErrorKind::NotFound => HallFault::NoFile(name),
        io::ErrorKind::AlreadyExists => HallFault::Taken(name),
        _ => HallFault::File { name, error },
    }
}

// The name of a file, and whether there is one.
#[derive(Clone, Copy)]
struct Place<'w> {
    name: &'w str,
    there: bool,
}

// Sees that this is what the system says of a plain file.
fn check_plain(heap: Global, name: &str, metadata: &Metadata) -> Result<(), HallFault> {
    if metadata.is_file() {
        return Ok(());
    }
    Err(HallFault::NotPlain(String::from_str(heap, name)?))
}

// What is there is refused, unless it is a plain file and to be overwritten.
fn place_of<'w>(rt: &HostRuntime, name: &'w str, force: bool) -> Result<Place<'w>, HallFault> {
    let there = fs::exists(rt, name).map_err(|e| fault_of(rt.alloc(), name, e))?;
    if there && !force {
        return Err(HallFault::Taken(String::from_str(rt.alloc(), name)?));
    }
    if there {
        check_plain(rt.alloc(), name, &fs::metadata(rt, name)?)?;
    }
    Ok(Place { name, there })
}

// Why a file cannot be opened or made: one that is not found has no folder.
fn making_fault(heap: Global, name: &str, error: io::Error) -> HallFault
    ensures { SaidOfMade name.now (error_kind error) result }
{
    match fault_of(heap, name, error) {
        HallFault::NoFile(name) => HallFault::NoFolder(name),
        fault => fault,
    }
}

// Opens a file, or makes it where there is none. What it holds stays as it is.
fn open_place(rt: &HostRuntime, place: Place) -> Result<File, HallFault> {
    let mut options = OpenOptions::new();
    options.read(true).write(true).create_new(!place.there);
    options
        .open(rt, place.name)
        .map_err(|e| making_fault(rt.alloc(), place.name, e))
}

// The file is zeros from now on, as many as the image has.
fn clear(file: &File, size: ImageSize) -> io::Result<()> {
    file.set_len(0)?;
    file.set_len(size.file_bytes())?;
    file.sync_all()
}

// The file of this name, cleared.
fn clear_place(
    rt: &HostRuntime,
    place: Place,
    file: &File,
    size: ImageSize,
) -> Result<(), HallFault> {
    clear(file, size).map_err(|e| fault_of(rt.alloc(), place.name, e))
}

/// The file of zeros that an exchange comes to lie on.
pub(crate) fn make_file(
    rt: &HostRuntime,
    name: &str,
    force: bool,
    size: ImageSize,
) -> Result<File, HallFault> {
    let place = place_of(rt, name, force)?;
    let file = open_place(rt, place)?;
    clear_place(rt, place, &file, size)?;
    Ok(file)
}

// Whether two open files are one, by whatever names.
fn is_one(first: &File, second: &File) -> io::Result<bool> {
    let (first, second) = (first.metadata()?, second.metadata()?);
    Ok(first.dev() == second.dev() && first.ino() == second.ino())
}

// The second file of two.
fn open_second(rt: &HostRuntime, place: Place, first: &File) -> Result<File, HallFault> {
    let second = open_place(rt, place)?;
    if is_one(first, &second)? {
        return Err(HallFault::OneFile);
    }
    Ok(second)
}

// Opens both files, or neither: where the second is refused, the first is gone again unless it was there before.
fn open_both(rt: &HostRuntime, one: Place, two: Place) -> Result<(File, File), HallFault> {
    let first = open_place(rt, one)?;
    match open_second(rt, two, &first) {
        Ok(second) => Ok((first, second)),
        Err(fault) => {
            if !one.there {
                let _ = fs::remove_file(rt, one.name);
            }
            Err(fault)
        }
    }
}

/// The two files of zeros that a mirror comes to lie on. Where one is refused, neither is made or changed.
pub(crate) fn make_files(
    rt: &HostRuntime,
    names: (&str, &str),
    force: bool,
    size: ImageSize,
) -> Result<(File, File), HallFault>
    ensures { IfOk result (λ _. names.entry.0.now ≢ names.entry.1.now) }
{
    if names.0 == names.1 {
        return Err(HallFault::OneFile);
    }
    let one = place_of(rt, names.0, force)?;
    let two = place_of(rt, names.1, force)?;
    let (first, second) = open_both(rt, one, two)?;
    clear_place(rt, one, &first, size)?;
    clear_place(rt, two, &second, size)?;
    Ok((first, second))
}

// How many bytes an image of this file has in memory.
fn size_of(heap: Global, name: &str, file: &File) -> Result<ImageSize, HallFault> {
    let metadata = file.metadata()?;
    check_plain(heap, name, &metadata)?;
    match ImageSize::of_length(metadata.len()) {
        Some(size) => Ok(size),
        None => Err(HallFault::NoImage(String::from_str(heap, name)?)),
    }
}

/// The image in the open file of this name, read into memory.
pub fn image_of(heap: Global, name: &str, file: &File) -> Result<Vec<u8>, HallFault>
    ensures { IfOk result (λ image. (n : ℕ) × (size_good n ≡ true) × (vec_len image ≡ 513 * n)) }
{
    let size = size_of(heap, name, file)?;
    let mut image = Vec::from_elem(heap, 0, size.image_bytes())?;
    load_image(file, &mut image);
    Ok(image)
}
