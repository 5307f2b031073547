//! What a drive keeps its sectors in: an image, and writes that wait to be put down in it.
ghost use Rattle.std.specs.Prelude.{◌≡◌, ℕ, List, [], ◌∷◌, ◌++◌};
ghost use Rattle.image.specs.Image.{bytes_of, seen, size_of};
ghost use Rattle.image.specs.Waiting.{over, put_all, put_some, settled, staying};
ghost use Rattle.image.specs.declared.pending.Pending.{Pending as Write};
ghost use Rattle.std.specs.Option.{option_map, option_to_list};

use device::Sector;
use image::{Pending, Plan};

pub trait Store {
    // How many writes may wait.
    ghost room: { ℕ };

    ghost image: { Self → List ℕ };

    ghost waiting: { Self → List Write };

    // The memory that the store stands on. `kept` relates two moments, which no type can hold: each call says it.
    ghost Lender: { Type 0 };

    ghost lender: { Self → Lender };

    /// How many sectors there are.
    fn count(&self) -> usize
        ensures { result ≡ size_of (image self.now) };

    /// The bytes of a sector, lent, or none where it is torn or lies past the image.
    fn find(&self, sector: usize) -> Option<&Sector>
        ensures { option_map (λ b. b.now) result ≡ bytes_of (seen (put_all (image self.now) (waiting self.now)) sector) };

    /// Takes a write behind those that wait, and puts the oldest down where more than fit then wait.
    fn put(&mut self, write: Pending)
        ensures image { image self.new ≡ put_some (image self.old) (over room (waiting self.old ++ write ∷ [])) }
        ensures waits { waiting self.new ≡ staying room (waiting self.old ++ write ∷ []) }
        ensures kept { lender self.new ≡ lender self.old };

    /// Puts every waiting write down.
    fn flush(&mut self)
        ensures image { image self.new ≡ put_all (image self.old) (waiting self.old) }
        ensures waits { waiting self.new ≡ [] }
        ensures kept { lender self.new ≡ lender self.old };

    /// What a cut makes of the waiting writes and of the one in course.
    fn settle(&mut self, plan: Plan, course: Option<Pending>)
        ensures image { image self.new ≡ settled plan (image self.old) (waiting self.old ++ option_to_list course) }
        ensures waits { waiting self.new ≡ [] }
        ensures kept { lender self.new ≡ lender self.old };
}
