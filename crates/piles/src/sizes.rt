//! How many bytes the drives of a shape stand on.
ghost use Rattle.std.specs.Prelude.{◌≡◌, ◌<◌, MatchOption, OnOk};
ghost use Rattle.piles.specs.Shapes.{drive_bytes, first_bytes_of, second_bytes_of};

use crate::{DriveKind, DriveShape, PileShape, WholeShape};
use image::Fuse;
use image::sectors::{MARKED_SECTOR, MOST_SECTORS};
use std::alloc::AllocError;

impl DriveShape {
    /// None where a drive cannot have so many sectors.
    pub fn new(kind: DriveKind, sectors: usize, fuses: Vec<Fuse>) -> Option<DriveShape>
        ensures { MatchOption result (65536 < sectors) (λ d. (d.kind ≡ kind) × (d.sectors ≡ sectors) × (d.fuses ≡ fuses)) }
    {
        if sectors > MOST_SECTORS {
            return None;
        }
        Some(DriveShape {
            kind,
            sectors,
            fuses,
        })
    }

    /// When it puts its writes down.
    pub fn kind(&self) -> DriveKind
        ensures { result ≡ self.now.kind }
    {
        self.kind
    }

    /// How many sectors it has.
    pub fn sectors(&self) -> usize
        ensures { result ≡ self.now.sectors }
    {
        self.sectors
    }

    /// Its fuses, the first of which is on from the start.
    pub fn fuses(&self) -> &[Fuse]
        ensures { result.now ≡ self.now.fuses.items }
    {
        &self.fuses
    }

    /// Takes these fuses in the place of its own, in the same memory where they fit.
    pub fn put_fuses(&mut self, fuses: &[Fuse]) -> Result<(), AllocError>
        ensures kept { (self.new.kind ≡ self.old.kind) × (self.new.sectors ≡ self.old.sectors) }
        ensures put { OnOk result (self.new.fuses.items ≡ fuses.now) }
    {
        self.fuses.clear();
        self.fuses.extend_from_slice(fuses)
    }

    /// The bytes of its image.
    pub fn bytes(&self) -> usize
        ensures { result ≡ drive_bytes self.now }
    {
        MARKED_SECTOR * self.sectors
    }
}

impl PileShape {
    /// The bytes of its first drive's image.
    pub fn first_bytes(&self) -> usize
        ensures { result ≡ first_bytes_of self.now.whole }
    {
        match &self.whole {
            WholeShape::Part(part) => part.drive.bytes(),
            WholeShape::Mirror(a, _) => a.drive.bytes(),
        }
    }

    /// The bytes of its second drive's image, 0 where it has one drive.
    pub fn second_bytes(&self) -> usize
        ensures { result ≡ second_bytes_of self.now.whole }
    {
        match &self.whole {
            WholeShape::Part(_) => 0,
            WholeShape::Mirror(_, b) => b.drive.bytes(),
        }
    }
}
