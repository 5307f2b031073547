//! The drive in memory, and the file that follows it.
ghost use Rattle.std.specs.Prelude.{◌&&◌, ◌≡◌, ◌≤◌, false};

use drives::WriteBack;
use std::fs::File;

/// The file, and whether it has failed since the device was woken. At most 8 of its writes are not synced.
#[derive(Drop)]
pub(crate) struct Backing {
    pub(crate) file: File,
    // How many writes the file has taken since its last sync.
    pub(crate) unsynced: u32,
    pub(crate) failed: bool,
    ghost most: { unsynced ≤ 8 },
}

/// A device on a file. A struct, so that its type has one lifetime. Where the file has failed it is dark.
#[derive(Drop)]
pub struct OnFile<'a> {
    pub(crate) drive: WriteBack<'a>,
    pub(crate) backing: Backing,
    ghost dark: { (backing.failed && drive.lit) ≡ false },
}
