//! What a pile is made of, as plain data.
ghost use Rattle.std.specs.Prelude.{◌≤◌};

use image::Fuse;

/// When a drive puts its writes down.
#[derive(Clone, Copy)]
pub enum DriveKind {
    /// At once.
    Direct,
    /// Up to 8 wait.
    WriteBack,
}

/// A drive of at most 65,536 sectors. The first fuse is on from the start, and each wake from the dark puts the next on.
#[derive(Drop)]
pub struct DriveShape {
    pub(crate) kind: DriveKind,
    pub(crate) sectors: usize,
    pub(crate) fuses: Vec<Fuse>,
    ghost few: { sectors ≤ 65536 },
}

/// The sectors of a drive from a base on; all of them where it is 0.
#[derive(Drop)]
pub struct PartShape {
    pub base: usize,
    pub drive: DriveShape,
}

/// A part, or two that mirror each other.
#[derive(Drop)]
pub enum WholeShape {
    Part(PartShape),
    Mirror(PartShape, PartShape),
}

/// The sectors of a whole from a base on; all of them where it is 0.
#[derive(Drop)]
pub struct PileShape {
    pub base: usize,
    pub whole: WholeShape,
}
