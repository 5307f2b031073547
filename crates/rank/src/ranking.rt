ghost use Rattle.std.specs.Prelude.{◌≡◌, Bool, true, false};

/// A ranking of elements. It is a value, so that one type can be ranked in several ways, and which
/// way can be chosen as the program runs.
pub trait Ranking<T> {
    // the ranked fields
    ghost Key: { Type 0 };

    ghost key: { T → Key };

    // whether one who has these ranked fields stands before one who has those
    ghost earlier: { Self → Key → Key → Bool };

    fn stands_before(&self, x: &T, y: &T) -> bool
        ensures { result ≡ earlier self.now (key x.now) (key y.now) };

    // nothing stands before itself
    ghost irreflexive: { (r : Self) (a : Key) → earlier r a a ≡ false };

    // standing before carries over chains
    ghost chains: { (r : Self) (a b c : Key) → earlier r a b ≡ true → earlier r b c ≡ true → earlier r a c ≡ true };

    // of two that differ in a ranked field one stands before the other (and by the other laws only one)
    ghost total: { (r : Self) (a b : Key) → earlier r a b ≡ false → earlier r b a ≡ false → a ≡ b };
}
