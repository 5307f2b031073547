//! The calls of a drive.
ghost use Rattle.std.specs.Prelude.{◌≡◌, Some};
ghost use Rattle.device.specs.Calls.{DidRead, DidSync, DidWrite, Woken};
ghost use Rattle.drives.specs.Drives.{DriveRead, DriveSync, DriveWrite, PassedBy, fused, gate_of, meaning_lawful, meaning_of, roused, state};
ghost use Rattle.std.specs.Option.{option_to_list};

use crate::Drive;
use device::{Device, DeviceFault, Sector};
use image::fuse::spend;
use image::{Fuse, Pending};
use stores::Store;

impl<S: Store> Drive<S> {
    /// Puts a fuse on, in place of any that is there. What the drive means stays.
    pub fn put_fuse(&mut self, fuse: Fuse)
        ensures state { state S.Store.image S.Store.waiting self.new ≡ fused (Some fuse) (state S.Store.image S.Store.waiting self.old) }
        ensures means { meaning_of (state S.Store.image S.Store.waiting self.new) ≡ meaning_of (state S.Store.image S.Store.waiting self.old) }
        ensures kept { S.Store.lender self.new.store ≡ S.Store.lender self.old.store }
    {
        self.fuse = Some(fuse);
    }

    // Lets a call through, and the fuse counts it. A call past the size or in the dark is stopped; so is one that the fuse
    // cuts, and then the power goes, by the fuse's plan, with the write in course. A sync has no
    // sector: it is within, and is told as 0.
    fn pass(
        &mut self,
        sector: usize,
        within: bool,
        course: Option<Pending>,
    ) -> Result<(), DeviceFault>
        ensures own { PassedBy (gate_of within self.old.lit self.old.fuse) (state S.Store.image S.Store.waiting self.old) sector (option_to_list course) result (state S.Store.image S.Store.waiting self.new) }
        ensures kept { S.Store.lender self.new.store ≡ S.Store.lender self.old.store }
    {
        if !within {
            return Err(DeviceFault::OutOfRange(sector));
        }
        if !self.lit {
            return Err(DeviceFault::Cut(sector));
        }
        if let Some(plan) = spend(&mut self.fuse) {
            self.store.settle(plan, course);
            self.lit = false;
            return Err(DeviceFault::Cut(sector));
        }
        Ok(())
    }
}

// The state is written out in each clause. (A model was tried: its value cannot name the type of the lender, which the
// clauses need beside the state.)
impl<S: Store> Device for Drive<S> {
    ghost meaning = { λ d. meaning_of (state S.Store.image S.Store.waiting d) };

    ghost lawful = { λ d. meaning_lawful (state S.Store.image S.Store.waiting d) };

    ghost Lender = { S.Store.Lender };

    ghost lender = { λ d. S.Store.lender d.store };

    fn size(&self) -> usize {
        self.store.count()
    }

    fn lit(&self) -> bool {
        self.lit
    }

    fn read(&mut self, sector: usize, buffer: &mut Sector) -> Result<(), DeviceFault>
        ensures did { DidRead (meaning_of (state S.Store.image S.Store.waiting self.old)) sector buffer.old result buffer.new (meaning_of (state S.Store.image S.Store.waiting self.new)) }
        ensures own { DriveRead (state S.Store.image S.Store.waiting self.old) sector buffer.old result buffer.new (state S.Store.image S.Store.waiting self.new) }
        ensures kept { S.Store.lender self.new.store ≡ S.Store.lender self.old.store }
    {
        let within = sector < self.store.count();
        self.pass(sector, within, None)?;
        *buffer = *self.store.find(sector).ok_or(DeviceFault::Torn(sector))?;
        Ok(())
    }

    fn write(&mut self, sector: usize, bytes: &Sector) -> Result<(), DeviceFault>
        ensures did { DidWrite (meaning_of (state S.Store.image S.Store.waiting self.old)) sector bytes.now result (meaning_of (state S.Store.image S.Store.waiting self.new)) }
        ensures own { DriveWrite S.Store.room (state S.Store.image S.Store.waiting self.old) sector bytes.now result (state S.Store.image S.Store.waiting self.new) }
        ensures kept { S.Store.lender self.new.store ≡ S.Store.lender self.old.store }
    {
        let write = Pending {
            sector,
            bytes: *bytes,
        };
        let within = sector < self.store.count();
        self.pass(sector, within, Some(write))?;
        self.store.put(write);
        Ok(())
    }

    fn sync(&mut self) -> Result<(), DeviceFault>
        ensures did { DidSync (meaning_of (state S.Store.image S.Store.waiting self.old)) result (meaning_of (state S.Store.image S.Store.waiting self.new)) }
        ensures own { DriveSync (state S.Store.image S.Store.waiting self.old) result (state S.Store.image S.Store.waiting self.new) }
        ensures kept { S.Store.lender self.new.store ≡ S.Store.lender self.old.store }
    {
        self.pass(0, true, None)?;
        self.store.flush();
        Ok(())
    }

    fn wake(&mut self)
        ensures did { Woken (meaning_of (state S.Store.image S.Store.waiting self.old)) (meaning_of (state S.Store.image S.Store.waiting self.new)) }
        ensures own { (state S.Store.image S.Store.waiting self.new) ≡ roused (state S.Store.image S.Store.waiting self.old) }
        ensures kept { S.Store.lender self.new.store ≡ S.Store.lender self.old.store }
    {
        if !self.lit {
            self.lit = true;
            self.fuse = None;
        }
    }
}
