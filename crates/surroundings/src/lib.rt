//! What may stand around a snippet, and why steps of rules 1 to 7 are sound in all of it.

#![tactic(auto)]

ghost use Rattle.std.specs.Prelude.{ℕ};
ghost use Rattle.trace.specs.Words.{Word, Behaviours};
ghost use Rattle.surroundings.specs.Soundness.{SoundEverywhere};

use ordering::Model;

/// Any sets of behaviours and of words, named by numbers: what the steps of a surrounding add. A
/// contract can speak of arbitrary sets only through a bound, so this trait is one.
pub trait Sets {
    ghost sets: { ℕ → Behaviours };

    ghost words: { ℕ → Word → Type 0 };
}

// Behaviours that are reached by steps add no observation, in any surrounding, on any model.
fn steps_are_sound<M: Model, S: Sets>(model: &M)
    ensures { SoundEverywhere (M.meaning model.now) S.sets S.words }
{}
