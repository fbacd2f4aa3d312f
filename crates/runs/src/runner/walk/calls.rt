ghost use Rattle.std.specs.Prelude.{◌≡◌, ◌<◌, ◌≤◌, [], ◌∷◌, ◌++◌, length, take, drop, OnOk, IfOk, IfErr};
ghost use Rattle.trace.specs.declared.refusal.Cause.TheVariants.{NoSuchRun};
ghost use Rattle.snippet.specs.Meant.{sizes_of, program_of};
ghost use Rattle.runs.specs.Runs.{start_of, choices_of, count};
ghost use Rattle.runs.specs.Exact.{BehavioursAreRuns};
ghost use Rattle.runs.specs.Held.{held};
ghost use Rattle.runs.specs.Answers.{declined, StartAnswer, RunAnswer};

use crate::choices::Choices;
use crate::machine::Machine;
use crate::ran::Ran;
use crate::registers::Registers;
use crate::span::Span;
use snippet::Snippet;
use trace::{Cause, Event, Refusal};

impl Registers {
    // One more register.
    fn push(&mut self, value: u8)
        requires { length (held self.old) < 4 }
        ensures { held self.new ≡ held self.old ++ (value ∷ []) }
    {
        self.values[usize::from(self.count)] = value;
        self.count += 1;
    }
}

// So many digits into as many registers.
#[tactic(auto, using(crate::proofs::Taking::take_first, crate::proofs::Taking::drop_first))]
fn first_registers(choices: &mut Choices, count: u8) -> Registers
    requires few { count ≤ 4 }
    requires there { count ≤ length choices.old }
    ensures held { held result ≡ take count choices.old }
    ensures rest { choices.new ≡ drop count choices.old }
{
    let mut registers = Registers::new();
    for _register in 0..count {
        registers.push(choices.next());
    }
    registers
}

// The start registers of a run, and its choices. Declined if there is no such run.
#[tactic(auto, using(crate::proofs::Bounds::count_is, crate::proofs::Digits::digits_length, crate::proofs::Digits::lower_digits, crate::proofs::Digits::upper_digits), unfolding(crate::specs::Runs::start_of, crate::specs::Runs::choices_of))]
fn begun(snippet: &Snippet, number: u16) -> Result<(Registers, Choices), Refusal>
    ensures there { OnOk result (number < count (sizes_of snippet.now) (program_of snippet.now)) }
    ensures start { IfOk result (λ o. held o.0 ≡ start_of (sizes_of snippet.now) number) }
    ensures choices { IfOk result (λ o. o.1 ≡ choices_of (sizes_of snippet.now) (program_of snippet.now) number) }
    ensures none { IfErr result (λ e. (count (sizes_of snippet.now) (program_of snippet.now) ≤ number) × (e ≡ declined NoSuchRun)) }
{
    if number >= snippet.runs {
        return Err(Refusal {
            cause: Cause::NoSuchRun,
            place: 0,
        });
    }
    let limits = snippet.body.limits;
    let mut choices = Choices::new(limits.values, limits.registers + snippet.choices, number);
    let registers = first_registers(&mut choices, limits.registers);
    Ok((registers, choices))
}

/// The registers from which the run of that number starts. Declined with `NoSuchRun` if there is none.
pub fn start_registers(snippet: &Snippet, number: u16) -> Result<Registers, Refusal>
    ensures { StartAnswer (sizes_of snippet.now) (program_of snippet.now) number result }
{
    let (registers, _) = begun(snippet, number)?;
    Ok(registers)
}

/// Carries out the run of that number: its word goes into the events, and its end registers into the
/// registers. Declined with `NoSuchRun` if there is no such run, and with `NoRoom` if the events are too few
/// for its word; they then hold its beginning.
#[tactic(auto, using(crate::proofs::Exact::behaviours_are_runs, crate::proofs::Laid::sets_short, trace::proofs::Lists::sets_start), unfolding(crate::specs::Runs::run_of))]
pub fn run(
    snippet: &Snippet,
    number: u16,
    events: &mut [Event],
    registers: &mut Registers,
) -> Result<Ran, Refusal>
    ensures answer { RunAnswer (sizes_of snippet.now) (program_of snippet.now) number registers.old registers.new events.old events.new result }
    ensures exact { BehavioursAreRuns (sizes_of snippet.now) (program_of snippet.now) }
{
    let (start, choices) = begun(snippet, number)?;
    let mut machine = Machine {
        body: &snippet.body,
        choices,
        registers: start,
        events,
        written: 0,
    };
    machine.run_block(Span::whole(&snippet.body))?;
    *registers = machine.registers;
    let taken = snippet.choices - machine.choices.left();
    Ok(Ran {
        length: machine.written,
        taken: usize::from(taken),
        idle: machine.choices.idle(),
    })
}
