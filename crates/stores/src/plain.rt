//! An image where no write waits.
ghost use Rattle.std.specs.Borrow.{GName};
ghost use Rattle.std.specs.Prelude.{[]};

use crate::Store;
use device::Sector;
use image::{Pending, Plan, sectors};

#[derive(Drop)]
pub struct Plain<'a> {
    pub image: &'a mut [u8],
}

impl Store for Plain<'_> {
    ghost room = { 0 };

    ghost image = { λ s. s.image.now };

    ghost waiting = { λ _. [] };

    ghost Lender = { GName };

    ghost lender = { λ s. s.image.ghost_name };

    // What both stores do alike is one call each.
    fn count(&self) -> usize {
        sectors::count(self.image)
    }

    fn find(&self, sector: usize) -> Option<&Sector> {
        sectors::lend(self.image, sector)
    }

    fn put(&mut self, write: Pending) {
        sectors::lower(self.image, &write);
    }

    fn flush(&mut self) {}

    fn settle(&mut self, plan: Plan, course: Option<Pending>) {
        if let Some(write) = course {
            sectors::land(self.image, plan.fate(), &write);
        }
    }
}
