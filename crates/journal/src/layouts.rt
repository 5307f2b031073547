//! How the sectors of a device are used.
ghost use Rattle.std.specs.Prelude.{◌≡◌, true};
ghost use Rattle.journal.specs.Places.{size_good};

mod places;

/// A device of 9 to 4,096 sectors: 8 for two snapshots, the others for the journal's pages, which go
/// round in them.
#[derive(Clone, Copy)]
pub struct Layout {
    size: usize,
    ghost fits: { size_good size ≡ true },
}
