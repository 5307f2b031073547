//! An image where up to 8 writes wait.
ghost use Rattle.std.specs.Borrow.{GName};

use crate::Store;
use device::Sector;
use image::{Pending, Plan, Queue, sectors};

#[derive(Drop)]
pub struct Cached<'a> {
    pub image: &'a mut [u8],
    pub queue: Queue,
}

impl Store for Cached<'_> {
    ghost room = { 8 };

    ghost image = { λ s. s.image.now };

    ghost waiting = { λ s. s.queue.items.items };

    ghost Lender = { GName };

    ghost lender = { λ s. s.image.ghost_name };

    // What both stores do alike is one call each.
    fn count(&self) -> usize {
        sectors::count(self.image)
    }

    fn find(&self, sector: usize) -> Option<&Sector> {
        if sector >= self.count() {
            return None;
        }
        match self.queue.lend_newest(sector) {
            Some(write) => Some(write.lend_bytes()),
            None => sectors::lend(self.image, sector),
        }
    }

    fn put(&mut self, write: Pending) {
        if let Some(oldest) = self.queue.admit(write) {
            sectors::lower(self.image, &oldest);
        }
    }

    fn flush(&mut self) {
        while let Some(next) = self.queue.take() {
            sectors::lower(self.image, &next);
        }
    }

    fn settle(&mut self, mut plan: Plan, course: Option<Pending>) {
        while let Some(waiting) = self.queue.take() {
            sectors::land(self.image, plan.fate(), &waiting);
            plan = plan.later();
        }
        if let Some(write) = course {
            sectors::land(self.image, plan.fate(), &write);
        }
    }
}
