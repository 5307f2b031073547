//! What a market is.
ghost use Rattle.std.specs.Prelude.{◌≡◌, ℕ, ◌+◌, ◌≤◌, true, List, length, IfOk, if◌then◌else◌, Some, Option, nat_lt};
ghost use Rattle.records.specs.LittleEndian.{Bytes};
ghost use Rattle.records.specs.declared.commands.Command.{Command};
ghost use Rattle.records.specs.declared.notices.Notice.{Notice};
ghost use Rattle.market.specs.Lists.{all};
ghost use Rattle.market.specs.Steps.{Applied, Loaded, uncounted};

use records::commands::Command;
use records::notices::Notice;
use records::numbers::CommandNumber;
use records::refusals::Refusal;
use std::alloc::{AllocError, Global};

/// A market: a state, with how many commands it has taken, and a step from a state and a command to
/// the next state and at most 64 notices. It raises the count by one, and at 1,000,000,000,000 does
/// nothing.
pub trait Market: Sized {
    /// Tells one kind of market from another on a snapshot.
    const CODE: u16;

    ghost CODE: { ℕ };

    ghost State: { Type 0 };

    // the states that a market can be in
    ghost valid: { State → Type 0 };

    ghost means: { Self → State };

    ghost start: { State };

    // the number of the last command
    ghost count: { State → ℕ };

    ghost step: { State → Command → State × List Notice };

    // the bytes that a state is saved as, and the state that bytes are saved from
    ghost body: { State → List ℕ };

    ghost loads: { List ℕ → Option State };

    /// A fresh market, with all the memory that it will need.
    fn new(heap: Global) -> Result<Self, AllocError>
        ensures { IfOk result (λ m. means m ≡ start) };

    /// Becomes fresh again, in the memory that it has.
    fn fresh(&mut self)
        ensures { means self.new ≡ start };

    /// The number of the last command, 0 where none has come.
    fn last(&self) -> CommandNumber
        ensures { result.0 ≡ count (means self.now) };

    /// Steps, puts the notices over the front of the list and says how many they are.
    // The list is lent: nothing allocates on the way of a call.
    fn apply(&mut self, command: &Command, list: &mut [Notice]) -> Result<usize, Refusal>
        ensures { Applied (means self.old) (step (means self.old) command.now) list.old (means self.new) list.new result };

    /// Writes the body.
    fn save(&self, out: &mut [u8; 1536])
        ensures { out.new ≡ body (means self.now) };

    /// Takes the state that the bytes were saved from; others are refused, and the state stays.
    fn load(&mut self, from: &[u8; 1536]) -> Result<(), Refusal>
        ensures { Loaded (loads from.now) (means self.old) (means self.new) result };

    ghost starts: { valid start × (count start ≡ 0) };

    ghost sound: { (m : Self) → valid (means m) };

    ghost bounded: { (s : State) → valid s → count s ≤ 1000000000000 };

    ghost keeps: { (s : State) (c : Command) → valid s → valid (step s c).0 };

    ghost few: { (s : State) (c : Command) → valid s → length (step s c).1 ≤ 64 };

    ghost counts: { (s : State) (c : Command) → count (step s c).0 ≡ (if nat_lt (count s) 1000000000000 then count s + 1 else count s) };

    ghost uncounts: { (s : State) (c : Command) → all (uncounted (count s + 1)) (step s c).1 ≡ true };

    ghost sized: { (s : State) → valid s → length (body s) ≡ 1536 };

    ghost plain: { (s : State) → valid s → Bytes (body s) };

    // loading a saved state gives it back
    ghost back: { (s : State) → valid s → loads (body s) ≡ Some s };

    // what loads is the body of a state that the market can be in
    ghost only: { (b : List ℕ) (s : State) → loads b ≡ Some s → valid s × (body s ≡ b) };
}
