//! What the rules of a market say.
ghost use Rattle.std.specs.Prelude.{◌≡◌, ℕ, ◌+◌, ◌<◌, ◌≤◌, Bool, true, false, List, [], length, take};
ghost use Rattle.records.specs.Commands.{good};
ghost use Rattle.records.specs.declared.commands.Command.{Command};
ghost use Rattle.records.specs.declared.notices.Notice.{Notice};
ghost use Rattle.market.specs.Lists.{all};
ghost use Rattle.market.specs.Resting.{Resting, nothing, sound as orders_sound, passed};
ghost use Rattle.market.specs.Steps.{Taken, uncounted};
ghost use Rattle.market.specs.Means.{state_of, HasRoom};
ghost use Rattle.body.specs.Loads.{held};

use body::image::Image;
use market::resting::RestingOrders;
use records::commands::Command;
use records::notices::Notice;

/// What a market does with its resting orders at a good command, and in which states it can be.
pub trait Rules {
    /// The market's code on a snapshot.
    const CODE: u16;

    ghost CODE: { ℕ };

    // whether a market can be in a state
    ghost sound: { Resting → Bool };

    // what a good command leads to
    ghost acted: { Resting → Command → Resting × List Notice };

    // what members may rely on of a command, from a state to the next with these notices
    ghost Fair: { Resting → Command → Resting → List Notice → Type 0 };

    /// Does what a good command asks, puts the notices over the front of the list and says how many
    /// they are.
    // The list is lent: nothing allocates on the way of a call.
    fn act(resting: &mut RestingOrders, command: &Command, list: &mut [Notice]) -> usize
        requires sound { sound (state_of resting.old) ≡ true }
        requires room { HasRoom resting.old }
        requires more { (state_of resting.old).last < 1000000000000 }
        requires good { good command.now ≡ true }
        requires long { 64 ≤ length list.old }
        ensures taken { Taken (acted (state_of resting.old) command.now) list.old (state_of resting.new) list.new result }
        ensures room { HasRoom resting.new }
        ensures fair { Fair (state_of resting.old) command.now (state_of resting.new) (take result list.new) };

    /// Whether a market can be in the state that was read from a body.
    fn may_load(image: &Image) -> bool
        ensures { result ≡ sound (held image.now) };

    ghost starts: { sound nothing ≡ true };

    // a state is sound as every market's is
    ghost orders: { (h : Resting) → sound h ≡ true → orders_sound h ≡ true };

    ghost keeps: { (h : Resting) (c : Command) → sound h ≡ true → h.last < 1000000000000 → good c ≡ true → sound (acted h c).0 ≡ true };

    ghost passes: { (h : Resting) → sound h ≡ true → h.last < 1000000000000 → sound (passed h) ≡ true };

    ghost few: { (h : Resting) (c : Command) → sound h ≡ true → length (acted h c).1 ≤ 64 };

    ghost counts: { (h : Resting) (c : Command) → (acted h c).0.last ≡ h.last + 1 };

    ghost uncounts: { (h : Resting) (c : Command) → all (uncounted (h.last + 1)) (acted h c).1 ≡ true };

    // a command that is not good is fair as it passes
    ghost passes_fair: { (h : Resting) (c : Command) → sound h ≡ true → h.last < 1000000000000 → good c ≡ false → Fair h c (passed h) [] };

    // at the last number nothing happens, which is fair
    ghost stays_fair: { (h : Resting) (c : Command) → sound h ≡ true → 1000000000000 ≤ h.last → Fair h c h [] };
}
