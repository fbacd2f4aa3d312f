ghost use Rattle.std.specs.Prelude.{◌≡◌, take};
ghost use Rattle.runs.specs.Held.{held};
ghost use Rattle.snippet.specs.Meant.{sizes_of, program_of};
ghost use Rattle.pairs.specs.Meant.{meant};
ghost use Rattle.handins.specs.Meant.{meant as derivation};
ghost use Rattle.judging.specs.Performed.{PerformAnswer};
ghost use Rattle.judging.specs.Judged.{Settled, Decided, Judged, OneAnswer};
ghost use Rattle.judging.specs.Valid.{Exactly};

use crate::performed::Performed;
use handins::{HandIn, read_hand_in};
use ordering::Model;
use pairs::Pair;
use rewrite::{Ranges, Step, Working};
use runs::{Registers, run, start_registers};
use snippet::Snippet;
use trace::{Cause, Event, Refusal};

impl Performed {
    // Carries out a run. A run has at most 32 events, one for each statement, so there is room.
    fn new(snippet: &Snippet, number: u16) -> Result<Performed, Refusal>
        ensures { PerformAnswer (sizes_of snippet.now) (program_of snippet.now) number result }
    {
        let start = start_registers(snippet, number)?;
        let mut events = [Event::BLANK; 48];
        let mut end = Registers::new();
        let ran = run(snippet, number, &mut events, &mut end)?;
        Ok(Performed {
            events,
            length: ran.length,
            start,
            end,
            idle: ran.idle,
        })
    }

    fn word(&self) -> &[Event]
        ensures { result.now ≡ take self.now.length self.now.events }
    {
        &self.events[..self.length]
    }
}

// Whether the steps lead from one run to the other.
fn settle<M: Model>(
    model: &M,
    given: &Performed,
    wanted: &Performed,
    steps: &[Step],
    ranges: Ranges,
) -> Result<(), Refusal>
    ensures { Settled (M.meaning model.now) ranges.values ranges.locations steps.now (take given.now.length given.now.events) (take wanted.now.length wanted.now.events) (held given.now.end) (held wanted.now.end) result }
{
    let mut word = Working::of(given.word());
    // a closure and no bare `?`: an edit changes the place in it, and nothing else
    word.replay(model, steps, ranges)
        .map_err(|stopped| Refusal::from(stopped))?;
    if word.is(wanted.word()) && given.end.same(&wanted.end) {
        Ok(())
    } else {
        Err(Refusal {
            cause: Cause::Ending,
            place: 0,
        })
    }
}

// Judges a hand-in that was read: both runs are looked at for each cause before the next cause.
fn decide<M: Model>(pair: &Pair, model: &M, hand_in: &HandIn) -> Result<(), Refusal>
    ensures { Decided (M.meaning model.now) (meant pair.now) (derivation hand_in.now) result }
{
    let wanted = Performed::new(&pair.replacement, hand_in.replacement)?;
    let given = Performed::new(&pair.original, hand_in.original)?;
    if wanted.idle || given.idle {
        return Err(Refusal {
            cause: Cause::IdleRun,
            place: 0,
        });
    }
    if !given.start.same(&wanted.start) {
        return Err(Refusal {
            cause: Cause::StartRegisters,
            place: 0,
        });
    }
    let limits = pair.original.body.limits;
    let ranges = Ranges {
        values: limits.values,
        locations: limits.locations,
    };
    settle(
        model,
        &given,
        &wanted,
        &hand_in.steps[..hand_in.count],
        ranges,
    )
}

/// Judges a hand-in's bytes: the run of the replacement that it shows to follow, or the first cause
/// against it.
#[tactic(auto, using(crate::proofs::Settling::exactly, crate::proofs::Settling::judged_one))]
pub fn judge<M: Model>(pair: &Pair, model: &M, bytes: &[u8]) -> Result<u16, Refusal>
    ensures judged { Judged (M.meaning model.now) (meant pair.now) bytes.now result }
    ensures exactly { Exactly (M.meaning model.now) (meant pair.now) bytes.now result }
    ensures one { OneAnswer (M.meaning model.now) (meant pair.now) bytes.now }
{
    let hand_in = read_hand_in(bytes)?;
    decide(pair, model, &hand_in)?;
    Ok(hand_in.replacement)
}
