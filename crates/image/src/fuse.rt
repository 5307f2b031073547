//! When the power is cut, and what the cut makes of each write.
ghost use Rattle.std.specs.Prelude.{◌≡◌};
ghost use Rattle.image.specs.Fuses.{counted, cutting, fate, later};

/// What a cut makes of a write.
#[derive(Clone, Copy, PartialEq, Eq, Debug)]
pub enum Fate {
    /// It never happened.
    Dropped,
    /// Its sector cannot be read: mark 1, the old bytes below.
    Torn,
    /// It is put down.
    Kept,
}

/// Two bits for each write, the oldest in the lowest: 0 dropped, 2 torn, 1 and 3 kept.
// Bits, since a script names plans by this number, and a drill counts through them.
#[derive(Clone, Copy, PartialEq, Eq, Debug)]
pub struct Plan {
    pub bits: u32,
}

impl Plan {
    /// The fate of the first write.
    pub fn fate(self) -> Fate
        ensures { result ≡ fate self }
    {
        match self.bits % 4 {
            0 => Fate::Dropped,
            2 => Fate::Torn,
            _ => Fate::Kept,
        }
    }

    /// The plan of the writes after it.
    pub fn later(self) -> Plan
        ensures { result ≡ later self }
    {
        Plan {
            bits: self.bits / 4,
        }
    }
}

/// Lets `left` reads, writes or syncs through and cuts the next one by its plan.
#[derive(Clone, Copy, PartialEq, Eq, Debug)]
pub struct Fuse {
    pub left: u32,
    pub plan: Plan,
}

/// Counts one call: the plan where the fuse cuts it.
pub fn spend(fuse: &mut Option<Fuse>) -> Option<Plan>
    ensures plan { result ≡ cutting fuse.old }
    ensures after { fuse.new ≡ counted fuse.old }
{
    let fuse = fuse.as_mut()?;
    if fuse.left == 0 {
        return Some(fuse.plan);
    }
    fuse.left -= 1;
    None
}
