//! The files of an exchange, locked and read.
ghost use Rattle.std.specs.Prelude.{IfOk, Ok, vec_items};
ghost use Rattle.runs.specs.Files.{FilesOf};
ghost use Rattle.runs.specs.Owners.{JudgedIn};

use crate::faults::RunFault;
use crate::owners::is_owned;
use halls::files::{fault_of, image_of};
use halls::owners::Owner;
use std::alloc::Global;
use std::fs::{File, OpenOptions, TryLockError};

/// A file, and its image in memory.
#[derive(Drop)]
pub(crate) struct Loaded {
    pub(crate) file: File,
    pub(crate) image: Vec<u8>,
}

// The file of this name, which no other run works on.
fn open_locked(rt: &HostRuntime, name: &str) -> Result<File, RunFault> {
    let heap = rt.alloc();
    let mut options = OpenOptions::new();
    options.read(true).write(true);
    let file = options.open(rt, name).map_err(|e| fault_of(heap, name, e))?;
    match file.try_lock() {
        Ok(()) => Ok(file),
        Err(TryLockError::WouldBlock) => Err(RunFault::InUse(String::from_str(heap, name)?)),
        Err(TryLockError::Error(e)) => Err(fault_of(heap, name, e).into()),
    }
}

// Sees that an exchange of this owner is in the image, or none; another's is refused.
fn check_owner(heap: Global, name: &str, image: &[u8], owner: Owner) -> Result<bool, RunFault>
    ensures { IfOk result (λ owned. JudgedIn owner image.now (Ok owned)) }
{
    match is_owned(image, owner) {
        Ok(owned) => Ok(owned),
        Err(other) => Err(RunFault::Other(String::from_str(heap, name)?, other)),
    }
}

// Opens a file and reads its image, and whether the owner's exchange is in it; nothing is written.
fn load(rt: &HostRuntime, name: &str, owner: Owner) -> Result<(Loaded, bool), RunFault>
    ensures { IfOk result (λ r. JudgedIn owner (vec_items r.0.image) (Ok r.1)) }
{
    let file = open_locked(rt, name)?;
    let image = image_of(rt.alloc(), name, &file)?;
    let owned = check_owner(rt.alloc(), name, &image, owner)?;
    Ok((Loaded { file, image }, owned))
}

/// The file of an exchange, or the two of its mirror.
#[derive(Drop)]
pub(crate) enum Files {
    One(Loaded),
    Two(Loaded, Loaded),
}

// The two files of a mirror: the exchange is on one of them at least, and no other's on any.
fn load_two(rt: &HostRuntime, names: (&str, &str), owner: Owner) -> Result<Files, RunFault>
    ensures { IfOk result (FilesOf owner) }
{
    let (first, in_first) = load(rt, names.0, owner)?;
    let (second, in_second) = load(rt, names.1, owner)?;
    if first.image.len() != second.image.len() {
        return Err(RunFault::Sizes);
    }
    if in_first || in_second {
        Ok(Files::Two(first, second))
    } else {
        Err(RunFault::NoExchange)
    }
}

/// Opens and reads the file, or both files, on which the exchange of this owner is; nothing is written.
pub(crate) fn load_files(
    rt: &HostRuntime,
    file: &str,
    mirror: Option<&str>,
    owner: Owner,
) -> Result<Files, RunFault>
    ensures { IfOk result (FilesOf owner) }
{
    let Some(other) = mirror else {
        return match load(rt, file, owner)? {
            (loaded, true) => Ok(Files::One(loaded)),
            (_, false) => Err(RunFault::NoExchange),
        };
    };
    load_two(rt, (file, other), owner)
}
