//! What was seen, and how often.
ghost use Rattle.std.specs.Prelude.{◌≡◌};
ghost use Rattle.outcomes.specs.Outcomes.{seen_is_new, seen_is_old, letter_of, mixed, noted, torn_of};

/// A sector, as it was read.
#[derive(Clone, Copy, PartialEq, Eq, Debug)]
pub enum Seen {
    /// Its first byte.
    Byte(u8),
    Torn,
    /// The read was refused or cut.
    Unread,
}

impl Seen {
    /// A letter for it: `-` for torn, `?` for unread.
    pub fn letter(self) -> char
        ensures { result ≡ letter_of self }
    {
        match self {
            Seen::Byte(b) => char::from(b),
            Seen::Torn => '-',
            Seen::Unread => '?',
        }
    }

    fn is_old(self) -> bool
        ensures { result ≡ seen_is_old self }
    {
        matches!(self, Seen::Byte(b) if b < 97)
    }

    fn is_new(self) -> bool
        ensures { result ≡ seen_is_new self }
    {
        matches!(self, Seen::Byte(b) if b >= 97)
    }

    fn torn(self) -> u32
        ensures { result ≡ torn_of self }
    {
        u32::from(matches!(self, Seen::Torn))
    }
}

/// Whether an operation was cut, and what two sectors read as after the wake.
#[derive(Clone, Copy, PartialEq, Eq, Debug)]
pub struct Outcome {
    pub cut: bool,
    pub first: Seen,
    pub second: Seen,
}

impl Outcome {
    // One sector is old and the other new.
    fn mixed(self) -> bool
        ensures { result ≡ mixed self }
    {
        self.first.is_old() && self.second.is_new() || self.first.is_new() && self.second.is_old()
    }
}

/// How many cuts, mixtures and torn sectors were seen.
#[derive(Clone, Copy, Default, PartialEq, Eq, Debug)]
pub struct Tally {
    pub cuts: u32,
    pub mixtures: u32,
    pub torn: u32,
}

impl Tally {
    pub fn new() -> Tally
        ensures { result ≡ record { cuts = 0; mixtures = 0; torn = 0 } }
    {
        Tally::default()
    }

    pub fn note(&mut self, outcome: Outcome)
        ensures { self.new ≡ noted outcome self.old }
    {
        self.cuts = self.cuts.saturating_add(u32::from(outcome.cut));
        self.mixtures = self.mixtures.saturating_add(u32::from(outcome.mixed()));
        self.torn = self
            .torn
            .saturating_add(outcome.first.torn())
            .saturating_add(outcome.second.torn());
    }
}
