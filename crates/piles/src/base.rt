//! The drives that a pile stands on.
ghost use Rattle.piles.specs.Bases.{BaseLender, base_lawful, base_lender, base_meaning};

use device::{Device, DeviceFault, Sector};
use drives::Schedule;
use either_device::Either;
use stores::{Cached, Plain};

/// A direct or a write-back drive, with its fuses. A struct, so that its type has one lifetime.
#[derive(Drop)]
pub struct Base<'a>(pub(crate) Either<Schedule<'a, Plain<'a>>, Schedule<'a, Cached<'a>>>);

impl Device for Base<'_> {
    ghost meaning = { base_meaning };

    ghost lawful = { base_lawful };

    ghost Lender = { BaseLender };

    ghost lender = { base_lender };

    fn size(&self) -> usize {
        self.0.size()
    }

    fn lit(&self) -> bool {
        self.0.lit()
    }

    fn read(&mut self, sector: usize, buffer: &mut Sector) -> Result<(), DeviceFault> {
        self.0.read(sector, buffer)
    }

    fn write(&mut self, sector: usize, bytes: &Sector) -> Result<(), DeviceFault> {
        self.0.write(sector, bytes)
    }

    fn sync(&mut self) -> Result<(), DeviceFault> {
        self.0.sync()
    }

    fn wake(&mut self) {
        self.0.wake();
    }
}
