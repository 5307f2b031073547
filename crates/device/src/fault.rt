//! What a device answers where it does not do what it is asked.
ghost use Rattle.std.specs.Prelude.{◌≡◌};
ghost use Rattle.device.specs.Faults.{asked, number, told_of};

/// A fault, with the sector that was asked (0 for a sync).
#[derive(Clone, Copy, PartialEq, Eq, Debug)]
pub enum DeviceFault {
    /// A read or write at or past the size.
    OutOfRange(usize),
    /// The power was cut, or was off.
    Cut(usize),
    /// A read met a torn sector.
    Torn(usize),
}

impl DeviceFault {
    /// 14, 15 or 16, as the reasons are numbered, for callers and outputs. A match: variants that carry a sector have no
    /// discriminant of their own.
    pub fn number(self) -> u8
        ensures { result ≡ number self }
    {
        match self {
            DeviceFault::OutOfRange(_) => 14,
            DeviceFault::Cut(_) => 15,
            DeviceFault::Torn(_) => 16,
        }
    }

    /// The sector that was asked.
    pub fn sector(self) -> usize
        ensures { result ≡ asked self }
    {
        match self {
            DeviceFault::OutOfRange(s) | DeviceFault::Cut(s) | DeviceFault::Torn(s) => s,
        }
    }

    /// The same fault, told of another sector.
    pub fn told_of(self, sector: usize) -> DeviceFault
        ensures { result ≡ told_of sector self }
    {
        match self {
            DeviceFault::OutOfRange(_) => DeviceFault::OutOfRange(sector),
            DeviceFault::Cut(_) => DeviceFault::Cut(sector),
            DeviceFault::Torn(_) => DeviceFault::Torn(sector),
        }
    }
}
