ghost use Rattle.std.specs.Prelude.{◌≡◌, []};
ghost use Rattle.pairs.specs.Meant.{meant};
ghost use Rattle.cases.specs.History.{hand_in};
ghost use Rattle.cases.specs.Promise.{HandInAnswer};
ghost use Rattle.cases.specs.Standing.{Follows, Stands, GoesOn, Unchanged};

use crate::active::active_runs;
use crate::case::Case;
use judging::judge;
use marks::Marks;
use ordering::Model;
use pairs::Pair;
use trace::Refusal;

impl<M: Model> Case<M> {
    /// Opens a case on a pair and a model, with no run matched.
    pub fn open(pair: Pair, model: M) -> Case<M>
        ensures pair { result.pair ≡ pair }
        ensures model { result.model ≡ model }
        ensures follows { Follows M.meaning result [] }
        ensures promise { Stands M.meaning result [] }
    {
        let active = active_runs(&pair.replacement);
        Case {
            pair,
            model,
            active,
            matched: Marks::none(),
        }
    }

    /// Judges a hand-in. If it is accepted, the run that it names is matched from now on; if it is
    /// declined, nothing changes.
    pub fn hand_in(&mut self, bytes: &[u8]) -> Result<(), Refusal>
        ensures pair { self.new.pair ≡ self.old.pair }
        ensures model { self.new.model ≡ self.old.model }
        ensures answer { HandInAnswer (M.meaning self.old.model) (meant self.old.pair) bytes.now result }
        ensures declined { Unchanged result self.old self.new }
        ensures goes_on { GoesOn M.meaning self.old (hand_in bytes.now) self.new }
    {
        let run = judge(&self.pair, &self.model, bytes)?;
        self.matched.add(run);
        Ok(())
    }
}
