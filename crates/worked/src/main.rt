//! Worked pairs: what the definitions answer to hand-ins for them is derived, and what the library
//! answers is printed.

#![tactic(auto)]

ghost use Rattle.std.specs.Prelude.{◌≡◌};
ghost use Rattle.worked.specs.Worked.{Worked, by_rule, as_it_is};
ghost use Rattle.pairs.specs.Encoded.{encode_pair};
ghost use Rattle.handins.specs.Encoded.{encode_hand_in};
ghost use Rattle.worked.specs.Pairs.{store_back, store_later, store_sooner, load_once, load_back, pair, sized, load_maybe};

use cases::{Call, Standing, Tally, play};
use judging::judge;
use ordering::{Clr, Ibm390, Model, Pinned, Pins, Pso, Sc, Tso};
use pairs::read_pair;
use runs::{Registers, run};
use snippet::Snippet;
use std::{fmt, io};
use surroundings::Sets;
use trace::{Event, Refusal};

// Each pair file: the version and the length; how many values, registers and locations; the original
// and the replacement behind their lengths. They are functions, since a constant has no
// contract that says whose file it is.

// "r0 := A; if r0 {} else {A := r0}" to "r0 := A".
fn store_back() -> [u8; 25]
    ensures { result ≡ encode_pair store_back }
{
    [
        1, 0, 22, 2, 1, 1, 0, 12, 1, 0, 0, 11, 0, 0, 0, 0, 3, 2, 0, 0, 0, 3, 1, 0, 0,
    ]
}

// "A := r0; r1 := B" to "r1 := B; A := r0".
fn store_later() -> [u8; 22]
    ensures { result ≡ encode_pair store_later }
{
    [
        1, 0, 19, 2, 2, 2, 0, 6, 2, 0, 0, 1, 1, 1, 0, 6, 1, 1, 1, 2, 0, 0,
    ]
}

// "r1 := B; A := r0" to "A := r0; r1 := B".
fn store_sooner() -> [u8; 22]
    ensures { result ≡ encode_pair store_sooner }
{
    [
        1, 0, 19, 2, 2, 2, 0, 6, 1, 1, 1, 2, 0, 0, 0, 6, 2, 0, 0, 1, 1, 1,
    ]
}

// "r0 := A; r1 := A" to "r0 := A; r1 := r0".
fn load_once() -> [u8; 22]
    ensures { result ≡ encode_pair load_once }
{
    [
        1, 0, 19, 2, 2, 1, 0, 6, 1, 0, 0, 1, 1, 0, 0, 6, 1, 0, 0, 4, 1, 0,
    ]
}

// "A := r0; r1 := A" to "A := r0; r1 := r0".
fn load_back() -> [u8; 22]
    ensures { result ≡ encode_pair load_back }
{
    [
        1, 0, 19, 2, 2, 1, 0, 6, 2, 0, 0, 1, 1, 0, 0, 6, 2, 0, 0, 4, 1, 0,
    ]
}

// "if r0 {r0 := A} else {}" to itself.
fn load_maybe() -> [u8; 28]
    ensures { result ≡ encode_pair (pair (sized 1 1) load_maybe load_maybe) }
{
    [
        1, 0, 25, 2, 1, 1, 0, 9, 11, 0, 0, 3, 1, 0, 0, 0, 0, 0, 9, 11, 0, 0, 3, 1, 0, 0, 0, 0,
    ]
}

// A hand-in of one step of a rule at place 0.
fn by_rule(rule: u8, to: u8, from: u8) -> [u8; 11]
    ensures { result ≡ encode_hand_in (by_rule rule to from) }
{
    [1, 0, 8, 0, to, 0, from, rule, 0, 0, 0]
}

// A hand-in without steps.
fn as_it_is(to: u8, from: u8) -> [u8; 7]
    ensures { result ≡ encode_hand_in (as_it_is to from) }
{
    [1, 0, 4, 0, to, 0, from]
}

/// What a call answered, which prints as "accepted", or as a cause's number and its place.
#[derive(Clone, Copy)]
struct Answer(Result<(), Refusal>);

impl fmt::Display for Answer {
    fn fmt<W: fmt::Write>(&self, f: &mut fmt::Formatter<W>) -> fmt::Result {
        match self.0 {
            Ok(()) => write!(f, "accepted"),
            Err(refusal) => {
                let number = refusal.cause.number();
                let place = refusal.place;
                write!(f, "{number} at {place}")
            }
        }
    }
}

// The answer to a hand-in for the pair of a file, on a model.
fn answered<M: Model>(model: &M, file: &[u8], hand_in: &[u8]) -> Answer {
    let judged = read_pair(file).and_then(|pair| judge(&pair, model, hand_in));
    Answer(judged.map(|_run| ()))
}

// A line with the answers on the five models.
fn show_models(rt: &HostRuntime, title: &str, file: &[u8], hand_in: &[u8]) -> io::Result<()> {
    let sc = answered(&Sc, file, hand_in);
    let ibm390 = answered(&Ibm390, file, hand_in);
    let tso = answered(&Tso, file, hand_in);
    let pso = answered(&Pso, file, hand_in);
    let clr = answered(&Clr, file, hand_in);
    println!(rt; "{title}: SC {sc}, 390 {ibm390}, TSO {tso}, PSO {pso}, CLR {clr}")
}

// A line with the answer on TSO where A is pinned.
fn show_pinned(rt: &HostRuntime, title: &str, file: &[u8], hand_in: &[u8]) -> io::Result<()> {
    let pinned = answered(
        &Pinned {
            under: Tso,
            pins: Pins { mask: 1 },
        },
        file,
        hand_in,
    );
    println!(rt; "{title}: TSO with A pinned {pinned}")
}

// A line that says whether a run is idle, or why there is none.
fn show_run(rt: &HostRuntime, snippet: &Snippet, number: u16) -> io::Result<()> {
    let mut events = [Event::BLANK; 48];
    let mut registers = Registers::new();
    match run(snippet, number, &mut events, &mut registers) {
        Ok(ran) => {
            let idle = if ran.idle { "idle" } else { "not idle" };
            println!(rt; "8 run {number}: {idle}")
        }
        Err(refusal) => {
            let answer = Answer(Err(refusal));
            println!(rt; "8 run {number}: {answer}")
        }
    }
}

// The four runs of the original of a pair file, and one past them.
fn show_idle(rt: &HostRuntime, file: &[u8]) -> io::Result<()> {
    let Ok(pair) = read_pair(file) else {
        return println!(rt; "8 the pair is declined");
    };
    for number in 0..5 {
        show_run(rt, &pair.original, number)?;
    }
    Ok(())
}

// Pinning keeps the model's number, twice over too.
fn show_numbers(rt: &HostRuntime) -> io::Result<()> {
    let plain = <Tso as Model>::NUMBER;
    let pinned = <Pinned<Tso> as Model>::NUMBER;
    let twice = <Pinned<Pinned<Tso>> as Model>::NUMBER;
    println!(rt; "TSO has the number {plain}, pinned {pinned}, pinned twice {twice}")
}

// How many cases follow from the definitions: all of them together.
fn derived() -> u8
    ensures { Worked }
{
    8
}

// Every behaviour and every word, under every number.
struct Everything;

impl Sets for Everything {
    ghost sets = { λ n b. Unit {0} };

    ghost words = { λ n w. Unit {0} };
}

// A line for the standing after so many calls.
fn show_standing(rt: &HostRuntime, made: usize, standing: Standing) -> io::Result<()> {
    let matched = standing.tally.matched;
    let active = standing.tally.active;
    match standing.lowest {
        None => println!(rt; "after {made} calls: {matched} of {active} matched, sound"),
        Some(run) => println!(rt;
            "after {made} calls: {matched} of {active} matched, run {run} is not"
        ),
    }
}

// A case on SC, at its opening and after each call.
fn show_played(rt: &HostRuntime) -> io::Result<()> {
    let Ok(pair) = read_pair(&store_back()) else {
        return println!(rt; "the pair is declined");
    };
    let (run0, run1) = (by_rule(5, 0, 0), by_rule(5, 1, 1));
    let (run2, run3) = (as_it_is(2, 2), as_it_is(3, 3));
    let calls = [
        Call::HandIn(&run3),
        Call::HandIn(&run0),
        Call::Verdict,
        Call::HandIn(&run0[0..7]),
        Call::HandIn(&run2),
        Call::Count,
        Call::HandIn(&run1),
    ];
    let mut standings = [Standing {
        lowest: None,
        tally: Tally {
            matched: 0,
            active: 0,
        },
    }; 8];
    play::<Sc, Everything>(pair, Sc, &calls, &mut standings);
    for (made, standing) in standings.iter().enumerate() {
        show_standing(rt, made, *standing)?;
    }
    Ok(())
}

fn main(rt: HostRuntime) -> io::Result<()> {
    let count = derived();
    println!(rt; "{count} cases follow from the definitions")?;
    show_models(
        &rt,
        "1 run 0 from 0 by rule 5",
        &store_back(),
        &by_rule(5, 0, 0),
    )?;
    show_models(
        &rt,
        "2 run 2 from 2 by no step",
        &store_back(),
        &as_it_is(2, 2),
    )?;
    show_models(
        &rt,
        "3 run 0 from 0 by rule 1",
        &store_later(),
        &by_rule(1, 0, 0),
    )?;
    show_models(
        &rt,
        "4 run 0 from 0 by rule 1",
        &store_sooner(),
        &by_rule(1, 0, 0),
    )?;
    show_pinned(
        &rt,
        "5 run 0 from 0 by rule 1",
        &store_later(),
        &by_rule(1, 0, 0),
    )?;
    show_models(
        &rt,
        "6 run 4 from 12 by rule 3",
        &load_once(),
        &by_rule(3, 4, 12),
    )?;
    show_models(
        &rt,
        "6 run 4 from 4 by rule 3",
        &load_once(),
        &by_rule(3, 4, 4),
    )?;
    show_models(
        &rt,
        "7 run 1 from 5 by rule 2",
        &load_back(),
        &by_rule(2, 1, 5),
    )?;
    show_models(
        &rt,
        "7 run 1 from 5 by rule 6",
        &load_back(),
        &by_rule(6, 1, 5),
    )?;
    show_idle(&rt, &load_maybe())?;
    show_numbers(&rt)?;
    show_played(&rt)
}
