ghost use Rattle.std.specs.Prelude.{◌≡◌};
ghost use Rattle.records.specs.Refusals.{reason};

use super::Refusal;

impl Refusal {
    /// The reason's number, 1 to 19.
    // Callers and outputs need the numbers; code matches the enum.
    pub fn number(self) -> u8
        ensures { result ≡ reason self }
    {
        self as u8
    }
}
