//! Bytes of a sector.
ghost use Rattle.std.specs.Prelude.{◌≡◌, ◌≤◌, length, drop};
ghost use Rattle.records.specs.Sectors.{zeros};

fn are_zero(bytes: &[u8]) -> bool
    ensures { result ≡ zeros bytes.now }
{
    bytes.iter().all(|b| *b == 0)
}

// Whether all bytes from `at` on are zeros.
pub(crate) fn all_zero_from(bytes: &[u8], at: usize) -> bool
    requires { at ≤ length bytes.now }
    ensures { result ≡ zeros (drop at bytes.now) }
{
    are_zero(&bytes[at..])
}
