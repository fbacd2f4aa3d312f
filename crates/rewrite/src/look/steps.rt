ghost use Rattle.std.specs.Prelude.{◌≡◌, ◌+◌, ◌-◌, ◌≤◌, ◌++◌, ℕ, length, take, drop, Some, MatchBool, ◌≢◌};
ghost use Rattle.rewrite.specs.Steps.{word, rule_of, Applied, Replayed, StepsAreSure, ChainsReach};
ghost use Rattle.ordering.specs.Meaning.{Meaning};
ghost use Rattle.rewrite.specs.declared.working.Rule.TheVariants.{NewLoad};
ghost use Rattle.rewrite.specs.Views.{left};

use super::{ask, fits};
use crate::working::{Denied, MOST, Question, Ranges, Rule, Step, Stopped, Working};
use ordering::Model;
use std::ops::Range;
use trace::{Event, same_word};

impl Working {
    /// The word of the given events, of the first 48 if they are more.
    pub fn of(events: &[Event]) -> Working
        ensures { word result ≡ take 48 events.now }
    {
        let mut made = Working {
            events: [Event::BLANK; MOST],
            len: 0,
        };
        made.splice(0..0, &events[..events.len().min(MOST)]);
        made
    }

    // Puts other events in the place of those that go.
    fn splice(&mut self, gone: Range<usize>, put: &[Event])
        requires order { gone.start ≤ gone.end }
        requires inside { gone.end ≤ self.old.len }
        requires room { gone.start + length put.now + (self.old.len - gone.end) ≤ MOST }
        ensures { word self.new ≡ take gone.start (word self.old) ++ (put.now ++ drop gone.end (word self.old)) }
    {
        let end = gone.start + put.len();
        self.events.copy_within(gone.end..self.len, end);
        self.events[gone.start..end].copy_from_slice(put);
        self.len = end + (self.len - gone.end);
    }

    // Puts in the place of two events what the rule leaves of them, written out so that it is seen.
    fn turn(&mut self, rule: Rule, p: usize, e: Event, f: Event)
        requires { p + 2 ≤ self.old.len }
        ensures { word self.new ≡ take p (word self.old) ++ (left rule e f ++ drop (p + 2) (word self.old)) }
    {
        match rule {
            Rule::Swap => self.splice(p..p + 2, &[f, e]),
            Rule::StoreBeforeStore => self.splice(p..p + 2, &[f]),
            _ => self.splice(p..p + 2, &[e]),
        }
    }

    // Rules 1 to 6: on the two events at the step's place and after it.
    fn pair<M: Model>(&mut self, model: &M, rule: Rule, step: Step) -> Result<(), Denied>
        requires number { rule_of step.rule ≡ Some rule }
        requires pairs { rule ≢ NewLoad }
        ensures { (v l : ℕ) → Applied (M.meaning model.now) v l step (word self.old) result (word self.new) }
    {
        let p = usize::from(step.place);
        if step.location != 0 || step.value != 0 || p + 1 >= self.len {
            return Err(Denied::Misfit);
        }
        let (e, f) = (self.events[p], self.events[p + 1]);
        let question = fits(rule, e, f).ok_or(Denied::Misfit)?;
        if !ask(model, question) {
            return Err(Denied::Forbidden);
        }
        self.turn(rule, p, e, f);
        Ok(())
    }

    // Rule 7: a new load.
    fn put(&mut self, step: Step, ranges: Ranges) -> Result<(), Denied>
        requires { rule_of step.rule ≡ Some NewLoad }
        ensures { (m : Meaning) → Applied m ranges.values ranges.locations step (word self.old) result (word self.new) }
    {
        let p = usize::from(step.place);
        if step.location >= ranges.locations || step.value >= ranges.values || p > self.len {
            return Err(Denied::Misfit);
        }
        if self.len == MOST {
            return Err(Denied::Overlong);
        }
        let load = Event::Load {
            location: step.location,
            value: step.value,
        };
        self.splice(p..p, &[load]);
        Ok(())
    }

    // Takes one step, or says why not and leaves the word.
    fn apply<M: Model>(&mut self, model: &M, step: Step, ranges: Ranges) -> Result<(), Denied>
        ensures { Applied (M.meaning model.now) ranges.values ranges.locations step (word self.old) result (word self.new) }
    {
        match Rule::try_from(step.rule)? {
            Rule::NewLoad => self.put(step, ranges),
            rule => self.pair(model, rule, step),
        }
    }

    /// Takes the steps one after another, up to the first that is denied. New loads are within the
    /// ranges.
    #[tactic(auto, using(crate::proofs::Reach::chain_reaches))]
    pub fn replay<M: Model>(
        &mut self,
        model: &M,
        steps: &[Step],
        ranges: Ranges,
    ) -> Result<(), Stopped>
        ensures replayed { Replayed (M.meaning model.now) ranges.values ranges.locations steps.now (word self.old) result (word self.new) }
        ensures sure { StepsAreSure }
        ensures reach { ChainsReach (M.meaning model.now) }
    {
        for (at, &step) in steps.iter().enumerate() {
            self.apply(model, step, ranges)
                .map_err(|why| Stopped { step: at, why })?;
        }
        Ok(())
    }

    /// Whether this is the given word.
    // a method and not `==`, since it compares with a slice, and promises that both are the same word
    pub fn is(&self, other: &[Event]) -> bool
        ensures { MatchBool result (word self.now ≡ other.now) (word self.now ≡ other.now → ⊥) }
    {
        same_word(&self.events[..self.len], other)
    }
}
