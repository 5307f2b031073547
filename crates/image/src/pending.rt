//! A write of a sector.
ghost use Rattle.std.specs.Prelude.{◌≡◌, length};

use device::Sector;

#[derive(Clone, Copy)]
pub struct Pending {
    pub sector: usize,
    pub bytes: Sector,
}

impl Pending {
    /// The bytes that it writes, a sector's, lent.
    pub fn lend_bytes(&self) -> &Sector
        ensures bytes { result.now ≡ self.now.bytes }
        ensures whole { length self.now.bytes ≡ 512 }
    {
        &self.bytes
    }
}
