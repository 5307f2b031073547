ghost use Rattle.std.specs.Prelude.{◌≡◌};
ghost use Rattle.records.specs.Commands.{within};

use super::{HIGHEST_PRICE, LAST_MEMBER, Lots, MOST_LOTS, Member, Price};

// Three types with a range of their own: each test is one call of the library.
impl Member {
    /// Whether it is one of 1 to 999,999.
    pub fn is_good(self) -> bool
        ensures { result ≡ within 1 999_999 self.0 }
    {
        (1..=LAST_MEMBER).contains(&self.0)
    }
}

impl Price {
    /// Whether it is one of 1 to 1,000,000.
    pub fn is_good(self) -> bool
        ensures { result ≡ within 1 1_000_000 self.0 }
    {
        (1..=HIGHEST_PRICE).contains(&self.0)
    }
}

impl Lots {
    /// Whether they are 1 to 1,000,000.
    pub fn is_good(self) -> bool
        ensures { result ≡ within 1 1_000_000 self.0 }
    {
        (1..=MOST_LOTS).contains(&self.0)
    }
}
