ghost use Rattle.std.specs.Prelude.{◌≡◌, ◌<◌, slice_set};

// A byte of a sector and what it becomes.
#[derive(Clone, Copy)]
pub(crate) struct Change(pub(crate) usize, pub(crate) u8);

// The sector with that byte changed; as it is where the place lies outside.
pub(crate) fn changed(sector: &[u8; 512], change: Change) -> [u8; 512]
    ensures { change.0 < 512 → result ≡ slice_set sector.now change.0 change.1 }
{
    let mut other = *sector;
    if change.0 < 512 {
        other[change.0] = change.1;
    }
    other
}

// Whether each change makes a sector that passes the test. (A sector and its changes go together in each table of tests; a struct
// of both would only be taken apart.)
pub(crate) fn each<F: Fn(&[u8; 512]) -> bool>(
    sector: &[u8; 512],
    changes: &[Change],
    test: F,
) -> bool
    requires { F.IsAlwaysCallable test }
{
    changes.iter().all(|change| test(&changed(sector, *change)))
}
