ghost use Rattle.std.specs.Prelude.{◌≡◌, ℕ};
ghost use Rattle.ordering.specs.Meaning.{Meaning, Lawful};

use trace::Access;

/// What an optimiser may remove where a model permits it.
#[derive(Clone, Copy, Debug, PartialEq, Eq)]
pub enum Removal {
    // rule 5: a store of the value that the load before it found
    StoreAfterLoad,
    // rule 6: a load of the value that the store before it left
    LoadAfterStore,
}

/// An ordering model. Its meaning is fixed by its value, and asking changes nothing. Each
/// implementation shows the laws: they are what the soundness of a verdict rests on.
pub trait Model {
    /// The number that the report prints: no enum, since anyone may add a model.
    const NUMBER: u8;

    ghost NUMBER: { ℕ };

    ghost meaning: { Self → Meaning };

    /// The same, of a model at hand.
    fn model_number(&self) -> u8
        ensures { result ≡ NUMBER }
    {
        Self::NUMBER
    }

    /// Whether the first access may swap with the second, just after it.
    fn may_swap(&self, first: Access, second: Access) -> bool
        ensures { result ≡ (meaning self.now).swaps first second };

    /// Whether a store to the location is forwarded to a load of it.
    fn forwards_at(&self, location: u8) -> bool
        ensures { result ≡ (meaning self.now).forwards location };

    /// Whether the removal is permitted at the location.
    fn permits(&self, removal: Removal, location: u8) -> bool
        ensures { result ≡ (meaning self.now).permits removal location };

    // nothing is allowed above location 7, accesses to one location swap only if both are loads, and
    // what is swapped or forwarded serves the removals by rules 5 and 6
    ghost lawful: { (m : Self) → Lawful (meaning m) };
}
