ghost use Rattle.std.specs.Prelude.{List};
ghost use Rattle.pairs.specs.Meant.{meant};
ghost use Rattle.cases.specs.History.{Call as Made, verdict as asked, count as counted};
ghost use Rattle.cases.specs.Promise.{VerdictPromise, CountPromise, Unobservable};
ghost use Rattle.cases.specs.Standing.{Verdict, Counted, Follows, GoesOn};

use crate::case::Case;
use crate::tally::Tally;
use ordering::Model;

impl<M: Model> Case<M> {
    /// The lowest run of the replacement that is neither idle nor matched. None means that the
    /// replacement is sound.
    pub fn verdict(&self) -> Option<u16>
        ensures marks { Verdict self.now result }
        ensures promise { (h : List Made) → Follows M.meaning self.now h → VerdictPromise (Unobservable (M.meaning self.now.model) (meant self.now.pair)) (M.meaning self.now.model) (meant self.now.pair) h result }
        ensures goes_on { GoesOn M.meaning self.now asked self.now }
    {
        self.active.first_missing(&self.matched)
    }

    /// How many different runs are matched, and how many runs of the replacement are not idle.
    pub fn count(&self) -> Tally
        ensures marks { Counted self.now result.matched result.active }
        ensures promise { (h : List Made) → Follows M.meaning self.now h → CountPromise (M.meaning self.now.model) (meant self.now.pair) h result.matched result.active }
        ensures goes_on { GoesOn M.meaning self.now counted self.now }
    {
        Tally {
            matched: self.matched.count(),
            active: self.active.count(),
        }
    }
}
