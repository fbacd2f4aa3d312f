ghost use Rattle.std.specs.Prelude.{◌≡◌, List};
ghost use Rattle.pairs.specs.Meant.{meant};
ghost use Rattle.cases.specs.History.{Call as Made};
ghost use Rattle.cases.specs.Promise.{VerdictPromise, CountPromise, Unobservable};
ghost use Rattle.cases.specs.Standing.{Verdict, Counted, Follows};

use crate::case::Case;
use crate::sealed::Sealed;
use lines::Report;
use ordering::Model;

impl<M: Model + Drop> Case<M> {
    /// Ends the case. A sealed case takes no hand-in, and only a sealed case gives a report.
    pub fn seal(self) -> Sealed
        ensures model { result.report.model ≡ M.NUMBER }
        ensures count { Counted self result.report.matched result.report.active }
        ensures verdict { Verdict self result.report.lowest }
        ensures promise { (h : List Made) → Follows M.meaning self h → VerdictPromise (Unobservable (M.meaning self.model) (meant self.pair)) (M.meaning self.model) (meant self.pair) h result.report.lowest × CountPromise (M.meaning self.model) (meant self.pair) h result.report.matched result.report.active }
    {
        let tally = self.count();
        Sealed {
            report: Report {
                model: self.model.model_number(),
                active: tally.active,
                matched: tally.matched,
                lowest: self.verdict(),
            },
        }
    }
}

impl Sealed {
    /// The report of the case that was sealed.
    pub fn report(&self) -> Report
        ensures { result ≡ self.now.report }
    {
        self.report
    }
}
