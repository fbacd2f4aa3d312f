ghost use Rattle.std.specs.Prelude.{◌≡◌, ℕ};
ghost use Rattle.marks.specs.Marks.{marked};
ghost use Rattle.pairs.specs.Meant.{meant};
ghost use Rattle.cases.specs.Active.{is_active};

use marks::Marks;
use pairs::Pair;

/// A case that is open. It holds the pair and the model by value; neither changes while it lasts. A
/// case cannot be copied, so that sealing one ends it.
#[derive(Drop)]
pub struct Case<M> {
    pub(crate) pair: Pair,
    pub(crate) model: M,
    // the runs of the replacement that are not idle
    pub(crate) active: Marks,
    // those that an accepted hand-in named
    pub(crate) matched: Marks,
    ghost live: { (k : ℕ) → marked active k ≡ is_active (meant pair).sizes (meant pair).replacement k },
}
