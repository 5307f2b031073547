//! Sectors that hold nothing.
ghost use Rattle.std.specs.Prelude.{◌≡◌};
ghost use Rattle.records.specs.Sectors.{zeros};

use device::Sector;

/// What is said of a sector that cannot be read.
pub(crate) const TORN: &str = "torn (the file cannot be read there)";

/// Whether all bytes of a sector are zeros.
pub(crate) fn is_blank(sector: &Sector) -> bool
    ensures { result ≡ zeros sector.now }
{
    sector.iter().all(|byte| *byte == 0)
}
