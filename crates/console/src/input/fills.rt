ghost use Rattle.std.specs.Prelude.{◌≡◌, false, [], length, MatchResult, ◌==◌};
ghost use Rattle.std.specs.List.{FoldsTo};
ghost use Rattle.console.specs.Inputs.{held, is_long, Pushed, NoText};

use super::LineBuffer;
use arrayvec::ArrayVec;
use std::str::from_utf8;
use words::LineFault;

impl LineBuffer {
    /// An empty line.
    pub fn new() -> LineBuffer
        ensures { (held result ≡ []) × (is_long result ≡ false) }
    {
        LineBuffer {
            bytes: ArrayVec::new(),
        }
    }

    /// One byte more of the line.
    pub fn push(&mut self, byte: u8)
        ensures { Pushed self.old byte self.new }
    {
        let _ = self.bytes.try_push(byte);
    }

    /// More bytes of the line, one after the other.
    pub fn extend(&mut self, bytes: &[u8])
        ensures { FoldsTo Pushed self.old bytes.now self.new }
    {
        for byte in bytes {
            self.push(*byte);
        }
    }

    /// The next line begins.
    pub fn clear(&mut self)
        ensures { (held self.new ≡ []) × (is_long self.new ≡ false) }
    {
        self.bytes.clear();
    }

    /// Whether no byte has come.
    pub fn is_empty(&self) -> bool
        ensures { result ≡ (length (held self.now) == 0) }
    {
        self.bytes.is_empty()
    }

    /// The line as text.
    pub fn text(&self) -> Result<&str, LineFault>
        ensures { MatchResult result (λ t. (t.now ≡ held self.now) × (is_long self.now ≡ false)) (NoText self.now) }
    {
        if self.bytes.is_full() {
            return Err(LineFault::TooLong);
        }
        from_utf8(&self.bytes).map_err(|_| LineFault::NotText)
    }
}
