ghost use Rattle.std.specs.Prelude.{◌≡◌, map, slice_set};
ghost use Rattle.pairs.specs.Meant.{meant};
ghost use Rattle.cases.specs.Standing.{Verdict, Counted, GoesOn};
ghost use Rattle.cases.specs.Played.{call_of, Played};

use crate::case::Case;
use crate::script::{Call, Standing};
use ordering::Model;
use pairs::Pair;
use surroundings::Sets;

fn standing<M: Model>(case: &Case<M>) -> Standing
    ensures verdict { Verdict case.now result.lowest }
    ensures count { Counted case.now result.tally.matched result.tally.active }
{
    Standing {
        lowest: case.verdict(),
        tally: case.count(),
    }
}

// Makes one call, and lets its answer go.
fn make<M: Model>(case: &mut Case<M>, call: Call<'_>)
    ensures pair { case.new.pair ≡ case.old.pair }
    ensures model { case.new.model ≡ case.old.model }
    ensures goes_on { GoesOn M.meaning case.old (call_of call.entry) case.new }
{
    match call {
        Call::HandIn(bytes) => {
            let _ = case.hand_in(bytes);
        }
        Call::Verdict => {
            let _ = case.verdict();
        }
        Call::Count => {
            let _ = case.count();
        }
    }
}

// Writes a standing at a place, if there is one.
fn note(standings: &mut [Standing], at: usize, standing: Standing)
    ensures { standings.new ≡ slice_set standings.old at standing }
{
    if at < standings.len() {
        standings[at] = standing;
    }
}

/// Plays any list of calls on a new case. The standings at the opening and after each call go into the
/// caller's slice as far as it reaches, and the last is the answer. What a sound verdict promises is
/// said here of arbitrary sets, through `S`.
pub fn play<M: Model + Drop, S: Sets>(
    pair: Pair,
    model: M,
    calls: &[Call<'_>],
    standings: &mut [Standing],
) -> Standing
    ensures { Played S.sets S.words (M.meaning model) (meant pair) (map call_of calls.now) standings.old standings.new result }
{
    let mut case = Case::open(pair, model);
    for (i, call) in calls.iter().enumerate() {
        note(standings, i, standing(&case));
        make(&mut case, *call);
    }
    let last = standing(&case);
    note(standings, calls.len(), last);
    last
}
