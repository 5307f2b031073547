//! Fuses for a drive, one after each cut.
ghost use Rattle.std.specs.Prelude.{◌≡◌};
ghost use Rattle.device.specs.Calls.{DidRead, DidSync, DidWrite, Woken};
ghost use Rattle.drives.specs.Drives.{DriveRead, DriveSync, DriveWrite, meaning_lawful, meaning_of, state};
ghost use Rattle.drives.specs.Schedules.{ScheduleWake, next_on, rest};

use crate::Drive;
use device::{Device, DeviceFault, Sector};
use image::Fuse;
use stores::Store;

/// A drive with a list of fuses: the first is on from the start, and each wake from the dark puts the next one on, so
/// that the power can be lost again and again. With none left the drive is woken without a fuse.
#[derive(Drop)]
pub struct Schedule<'a, S> {
    drive: Drive<S>,
    // Those still to come.
    fuses: &'a [Fuse],
}

impl<'a, S: Store> Schedule<'a, S> {
    /// With an empty list the drive stays as it is.
    pub fn new(drive: Drive<S>, fuses: &'a [Fuse]) -> Schedule<'a, S>
        ensures drive { state S.Store.image S.Store.waiting result.drive ≡ next_on fuses.now (state S.Store.image S.Store.waiting drive) }
        ensures fuses { result.fuses.now ≡ rest fuses.now }
        ensures kept { S.Store.lender result.drive.store ≡ S.Store.lender drive.store }
    {
        let mut schedule = Schedule { drive, fuses };
        schedule.put_next();
        schedule
    }

    // Puts the next fuse on, where there is one.
    fn put_next(&mut self)
        ensures drive { (state S.Store.image S.Store.waiting self.new.drive) ≡ next_on self.old.fuses.now (state S.Store.image S.Store.waiting self.old.drive) }
        ensures fuses { self.new.fuses.now ≡ rest self.old.fuses.now }
        ensures kept { S.Store.lender self.new.drive.store ≡ S.Store.lender self.old.drive.store }
    {
        if let [fuse, later @ ..] = self.fuses {
            self.drive.put_fuse(*fuse);
            self.fuses = later;
        }
    }
}

// The state and the lender are written out in each clause. (A model was tried: its value cannot name the type of the lender,
// which the clauses need beside the state.)
impl<S: Store> Device for Schedule<'_, S> {
    ghost meaning = { λ d. meaning_of (state S.Store.image S.Store.waiting d.drive) };

    ghost lawful = { λ d. meaning_lawful (state S.Store.image S.Store.waiting d.drive) };

    ghost Lender = { S.Store.Lender };

    ghost lender = { λ d. S.Store.lender d.drive.store };

    fn size(&self) -> usize {
        self.drive.size()
    }

    fn lit(&self) -> bool {
        self.drive.lit()
    }

    fn read(&mut self, sector: usize, buffer: &mut Sector) -> Result<(), DeviceFault>
        ensures did { DidRead (meaning_of (state S.Store.image S.Store.waiting self.old.drive)) sector buffer.old result buffer.new (meaning_of (state S.Store.image S.Store.waiting self.new.drive)) }
        ensures own { DriveRead (state S.Store.image S.Store.waiting self.old.drive) sector buffer.old result buffer.new (state S.Store.image S.Store.waiting self.new.drive) }
        ensures fuses { self.new.fuses.now ≡ self.old.fuses.now }
        ensures kept { S.Store.lender self.new.drive.store ≡ S.Store.lender self.old.drive.store }
    {
        self.drive.read(sector, buffer)
    }

    fn write(&mut self, sector: usize, bytes: &Sector) -> Result<(), DeviceFault>
        ensures did { DidWrite (meaning_of (state S.Store.image S.Store.waiting self.old.drive)) sector bytes.now result (meaning_of (state S.Store.image S.Store.waiting self.new.drive)) }
        ensures own { DriveWrite S.Store.room (state S.Store.image S.Store.waiting self.old.drive) sector bytes.now result (state S.Store.image S.Store.waiting self.new.drive) }
        ensures fuses { self.new.fuses.now ≡ self.old.fuses.now }
        ensures kept { S.Store.lender self.new.drive.store ≡ S.Store.lender self.old.drive.store }
    {
        self.drive.write(sector, bytes)
    }

    fn sync(&mut self) -> Result<(), DeviceFault>
        ensures did { DidSync (meaning_of (state S.Store.image S.Store.waiting self.old.drive)) result (meaning_of (state S.Store.image S.Store.waiting self.new.drive)) }
        ensures own { DriveSync (state S.Store.image S.Store.waiting self.old.drive) result (state S.Store.image S.Store.waiting self.new.drive) }
        ensures fuses { self.new.fuses.now ≡ self.old.fuses.now }
        ensures kept { S.Store.lender self.new.drive.store ≡ S.Store.lender self.old.drive.store }
    {
        self.drive.sync()
    }

    fn wake(&mut self)
        ensures did { Woken (meaning_of (state S.Store.image S.Store.waiting self.old.drive)) (meaning_of (state S.Store.image S.Store.waiting self.new.drive)) }
        ensures own { ScheduleWake self.old.fuses.now (state S.Store.image S.Store.waiting self.old.drive) self.new.fuses.now (state S.Store.image S.Store.waiting self.new.drive) }
        ensures kept { S.Store.lender self.new.drive.store ≡ S.Store.lender self.old.drive.store }
    {
        let lit = self.drive.lit();
        self.drive.wake();
        if !lit {
            self.put_next();
        }
    }
}
