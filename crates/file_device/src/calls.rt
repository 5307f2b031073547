//! The calls of a device on a file.
ghost use Rattle.device.specs.Calls.{DidSync, DidWrite};
ghost use Rattle.device.specs.declared.fault.DeviceFault.TheVariants.{Cut};
ghost use Rattle.drives.specs.Drives.{fused};
ghost use Rattle.file_device.specs.Files.{drive_lender, drive_meaning, drive_state, file_lawful, file_lender, file_meaning, OneMore};
ghost use Rattle.std.specs.Borrow.{GName};
ghost use Rattle.std.specs.Prelude.{◌<◌, ◌≡◌, ◌⊎◌, Err, OnOk, Some, false, true};

use crate::on_file::{Backing, OnFile};
use device::{Device, DeviceFault, Sector};
use drives::WriteBack;
use image::{Fuse, Plan};
use std::fs::File;
use std::os::unix::fs::FileExt;

/// The bytes of a sector in the file.
pub const FILE_SECTOR: u64 = 512;

// So many writes may wait in the drive. Before one more the file is synced, so that what the drive puts down is safe there, too.
const MOST_WAITING: u32 = 8;

// The fuse that cuts the next call.
const BLOWN: Fuse = Fuse {
    left: 0,
    plan: Plan { bits: 0 },
};

impl Backing {
    // The file is synced.
    fn settle(&mut self)
        ensures synced { (self.new.failed ≡ true) ⊎ (self.new.unsynced ≡ 0) }
        ensures kept { self.old.failed ≡ true → self.new.failed ≡ true }
    {
        match self.file.sync_data() {
            Ok(()) => self.unsynced = 0,
            Err(_) => self.failed = true,
        }
    }

    // The file takes a write, unless a sync that has to come first fails.
    fn put(&mut self, sector: usize, bytes: &Sector)
        ensures counted { (self.new.failed ≡ true) ⊎ OneMore self.old.unsynced self.new.unsynced }
        ensures kept { self.old.failed ≡ true → self.new.failed ≡ true }
    {
        if self.unsynced >= MOST_WAITING {
            self.settle();
            if self.failed {
                return;
            }
        }
        let place = (sector as u64).wrapping_mul(FILE_SECTOR);
        match self.file.write_all_at(bytes, place) {
            Ok(()) => self.unsynced += 1,
            Err(_) => self.failed = true,
        }
    }
}

// The next call of the drive is cut, and nothing that waits is kept.
fn blow(drive: &mut WriteBack)
    ensures blown { drive_state drive.new ≡ fused (Some BLOWN) (drive_state drive.old) }
    ensures kept { drive_lender drive.new ≡ drive_lender drive.old }
{
    drive.put_fuse(BLOWN);
}

// The file did not take a write: that is a cut.
fn cut_write(drive: &mut WriteBack, sector: usize, bytes: &Sector) -> Result<(), DeviceFault>
    requires reaches { ((drive_meaning drive.old).lit ≡ true) × (sector < (drive_meaning drive.old).size) }
    ensures cut { result ≡ Err (Cut sector) }
    ensures dark { drive.new.lit ≡ false }
    ensures did { DidWrite (drive_meaning drive.old) sector bytes.now result (drive_meaning drive.new) }
    ensures kept { drive_lender drive.new ≡ drive_lender drive.old }
{
    blow(drive);
    drive.write(sector, bytes)
}

// The file was not synced: that is a cut.
fn cut_sync(drive: &mut WriteBack) -> Result<(), DeviceFault>
    requires lit { (drive_meaning drive.old).lit ≡ true }
    ensures cut { result ≡ Err (Cut 0) }
    ensures dark { drive.new.lit ≡ false }
    ensures did { DidSync (drive_meaning drive.old) result (drive_meaning drive.new) }
    ensures kept { drive_lender drive.new ≡ drive_lender drive.old }
{
    blow(drive);
    drive.sync()
}

impl<'a> OnFile<'a> {
    /// The drive is over the file's image.
    pub fn new(drive: WriteBack<'a>, file: File) -> OnFile<'a>
        ensures drive { result.drive ≡ drive.entry }
        ensures settled { result.backing.unsynced ≡ 0 }
    {
        let backing = Backing {
            file,
            unsynced: 0,
            failed: false,
        };
        OnFile { drive, backing }
    }
}

impl Device for OnFile<'_> {
    ghost meaning = { file_meaning };

    ghost lawful = { file_lawful };

    ghost Lender = { GName };

    ghost lender = { file_lender };

    fn size(&self) -> usize {
        self.drive.size()
    }

    fn lit(&self) -> bool {
        self.drive.lit()
    }

    fn read(&mut self, sector: usize, buffer: &mut Sector) -> Result<(), DeviceFault> {
        self.drive.read(sector, buffer)
    }

    fn write(&mut self, sector: usize, bytes: &Sector) -> Result<(), DeviceFault>
        ensures did { DidWrite (file_meaning self.old) sector bytes.now result (file_meaning self.new) }
        ensures kept { file_lender self.new ≡ file_lender self.old }
        ensures counted { OnOk result (OneMore self.old.backing.unsynced self.new.backing.unsynced) }
    {
        if self.drive.lit() && sector < self.drive.size() {
            self.backing.put(sector, bytes);
            if self.backing.failed {
                return cut_write(&mut self.drive, sector, bytes);
            }
        }
        self.drive.write(sector, bytes)
    }

    fn sync(&mut self) -> Result<(), DeviceFault>
        ensures did { DidSync (file_meaning self.old) result (file_meaning self.new) }
        ensures kept { file_lender self.new ≡ file_lender self.old }
        ensures settled { OnOk result (self.new.backing.unsynced ≡ 0) }
    {
        if self.drive.lit() {
            self.backing.settle();
            if self.backing.failed {
                return cut_sync(&mut self.drive);
            }
        }
        self.drive.sync()
    }

    fn wake(&mut self) {
        self.backing.failed = false;
        self.drive.wake();
    }
}
