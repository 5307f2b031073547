//! The two places for a snapshot.
ghost use Rattle.std.specs.Prelude.{◌≡◌};
ghost use Rattle.journal.specs.Slots.{header_place, body_place, other};

/// A snapshot slot: four sectors, a header and a body of three.
#[derive(Clone, Copy, PartialEq, Eq, PartialOrd, Ord, Debug)]
pub enum Slot {
    Zero = 0,
    One = 1,
}

impl Slot {
    /// The slot that this one is not.
    pub fn other(self) -> Slot
        ensures { result ≡ other self }
    {
        match self {
            Slot::Zero => Slot::One,
            Slot::One => Slot::Zero,
        }
    }

    /// The sector of its header.
    pub fn header_sector(self) -> usize
        ensures { result ≡ header_place self }
    {
        4 * self as usize
    }

    /// The first of the three sectors of its body.
    pub fn body_sector(self) -> usize
        ensures { result ≡ body_place self }
    {
        self.header_sector() + 1
    }
}
