ghost use Rattle.std.specs.Prelude.{◌≡◌, ◌≢◌, ℕ, [], ◌∷◌, MatchBool, MatchOption};
ghost use Rattle.trace.specs.Words.{Word};
ghost use Rattle.rewrite.specs.declared.working.Question.{Question as Asked};
ghost use Rattle.rewrite.specs.Steps.{Turns, answer};
ghost use Rattle.rewrite.specs.Views.{left};

use crate::working::{Question, Rule};
use ordering::{Model, Removal};
use trace::Event;

mod steps;

// Whether the event is a store to the location.
fn stores_to(event: Event, location: u8) -> bool
    ensures { MatchBool result ((x : ℕ) × (event ≡ Event.Store location x)) ((x : ℕ) → event ≢ Event.Store location x) }
{
    matches!(event, Event::Store { location: l, .. } if l == location)
}

// The question, if the event is the one that the rule wants there.
fn if_same(event: Event, wanted: Event, question: Question) -> Option<Question>
    ensures { MatchOption result (event ≢ wanted) (λ q. (event ≡ wanted) × (q ≡ question)) }
{
    (event == wanted).then_some(question)
}

// What the rule asks of the model for the two events, if they fit.
fn fits(rule: Rule, e: Event, f: Event) -> Option<Question>
    ensures { MatchOption result ((K z : ℕ) (Y : Word) (q : Asked) → Turns K z rule (e ∷ f ∷ []) Y q → ⊥) (λ q. (K z : ℕ) → Turns K z rule (e ∷ f ∷ []) (left rule e f) q) }
{
    match (rule, e) {
        (Rule::Swap, _) => {
            let (a, b) = (e.access()?, f.access()?);
            Some(Question::MaySwap(a, b))
        }
        (Rule::Forward, Event::Store { location, value }) => {
            let load = Event::Load { location, value };
            if_same(f, load, Question::Forwards(location))
        }
        (Rule::LoadAfterLoad, Event::Load { .. }) => if_same(f, e, Question::Nothing),
        (Rule::StoreBeforeStore, Event::Store { location, .. }) => {
            stores_to(f, location).then_some(Question::Nothing)
        }
        (Rule::StoreAfterLoad, Event::Load { location, value }) => {
            let store = Event::Store { location, value };
            let question = Question::Permits(Removal::StoreAfterLoad, location);
            if_same(f, store, question)
        }
        (Rule::LoadAfterStore, Event::Store { location, value }) => {
            let load = Event::Load { location, value };
            let question = Question::Permits(Removal::LoadAfterStore, location);
            if_same(f, load, question)
        }
        _ => None,
    }
}

// The model's answer.
fn ask<M: Model>(model: &M, question: Question) -> bool
    ensures { result ≡ answer (M.meaning model.now) question }
{
    match question {
        Question::MaySwap(first, second) => model.may_swap(first, second),
        Question::Forwards(location) => model.forwards_at(location),
        Question::Permits(removal, location) => model.permits(removal, location),
        Question::Nothing => true,
    }
}
