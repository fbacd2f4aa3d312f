ghost use Rattle.std.specs.Prelude.{◌≡◌, ◌+◌, ◌%◌, ◌^◌, ◌<◌, ◌≤◌, ◌==◌, cond, [], ◌∷◌, length, slice_index, slice_set};
ghost use Rattle.snippet.specs.Layout.{ending, after};
ghost use Rattle.runs.specs.Runs.{digits, nonzero, first, others, ran};
ghost use Rattle.runs.specs.Held.{held};
ghost use Rattle.runs.specs.Walk.{Walks};

use crate::choices::Choices;
use crate::full::Full;
use crate::machine::Machine;
use crate::span::Span;
use snippet::{Body, Statement};
use trace::Event;

// What uses these small steps stands below, so that they stay private.
mod sure;
mod walk;

pub use sure::never_idle;
pub use walk::{run, start_registers};

impl Choices {
    fn new(base: u8, count: u8, number: u16) -> Choices
        requires { (2 ≤ base) × (number < base ^ count) }
        ensures { result ≡ digits base count number }
    {
        Choices {
            base,
            left: count,
            rest: number,
        }
    }

    // How many choices are left.
    #[tactic(auto, using(crate::proofs::Digits::digits_length))]
    fn left(&self) -> u8
        ensures { result ≡ length self.now }
    {
        self.left
    }

    // Whether a choice that is left is not 0.
    #[tactic(auto, using(crate::proofs::Digits::nonzero_digits))]
    fn idle(&self) -> bool
        ensures { result ≡ nonzero self.now }
    {
        self.rest != 0
    }

    // Takes the next choice: 0 where none is left.
    #[tactic(auto, using(crate::proofs::Digits::digits_next, crate::proofs::Digits::div_below))]
    fn next(&mut self) -> u8
        ensures value { result ≡ first self.old }
        ensures rest { self.new ≡ others self.old }
    {
        if self.left == 0 {
            return 0;
        }
        let base = u16::from(self.base);
        let rest = self.rest;
        *self = Choices {
            base: self.base,
            left: self.left - 1,
            rest: rest / base,
        };
        // it fits, since it is below the base
        (rest % base) as u8
    }
}

impl Span {
    fn whole(body: &Body) -> Span
        ensures at { result.at ≡ 0 }
        ensures to { result.to ≡ body.now.len }
    {
        Span {
            at: 0,
            to: body.len,
        }
    }

    // The places past the first.
    fn rest(self) -> Span
        requires { self.at < self.to }
        ensures at { result.at ≡ self.at + 1 }
        ensures to { result.to ≡ self.to }
    {
        Span {
            at: self.at + 1,
            to: self.to,
        }
    }

    // The first `count` places, or all if they are fewer, and the others.
    fn split(self, count: u8) -> (Span, Span)
        ensures at { result.0.at ≡ self.at }
        ensures middle { (result.0.to ≡ ending self.at count self.to) × (result.1.at ≡ result.0.to) }
        ensures to { result.1.to ≡ self.to }
    {
        let middle = self.at + usize::from(count).min(self.to - self.at);
        let first = Span {
            at: self.at,
            to: middle,
        };
        let others = Span {
            at: middle,
            to: self.to,
        };
        (first, others)
    }

    // The places past the first statement and its blocks.
    fn past(self, statement: Statement) -> Span
        requires { self.at < self.to }
        ensures at { result.at ≡ after statement self.at self.to }
        ensures fewer { self.at < result.at }
        ensures to { result.to ≡ self.to }
    {
        let rest = self.rest();
        match statement {
            Statement::If { nonzero, zero, .. } => rest.split(nonzero).1.split(zero).1,
            Statement::Declare { inner, .. } => rest.split(inner).1,
            _ => rest,
        }
    }
}

impl Machine<'_> {
    // Writes the next event, if there is a place for it.
    fn emit(&mut self, event: Event) -> Result<(), Full>
        ensures { Walks (ran (event ∷ []) (held self.old.registers) self.old.choices) self.old self.new result }
    {
        let at = self.written;
        if at >= self.events.len() {
            return Err(Full);
        }
        self.events[at] = event;
        self.written = at + 1;
        Ok(())
    }

    // Writes the event of a value that was found, and puts the value into a register.
    fn emit_found(&mut self, event: Event, value: u8, register: u8) -> Result<(), Full>
        ensures { Walks (ran (event ∷ []) (slice_set (held self.old.registers) register value) self.old.choices) self.old self.new result }
    {
        self.emit(event)?;
        self.registers.put(register, value);
        Ok(())
    }

    // The sum of two registers, as a value of the snippet's.
    fn sum(&self, left: u8, right: u8) -> u8
        ensures { result ≡ (slice_index (held self.now.registers) left + slice_index (held self.now.registers) right) % self.now.body.now.limits.values }
    {
        let total = u16::from(self.registers.get(left)) + u16::from(self.registers.get(right));
        // it fits, since it is below the number of values
        (total % u16::from(self.body.limits.values)) as u8
    }

    // What a compare-and-swap leaves where it finds that value.
    fn swapped(&self, found: u8, compared: u8, new: u8) -> u8
        ensures { result ≡ cond (found == slice_index (held self.now.registers) compared) (slice_index (held self.now.registers) new) found }
    {
        if found == self.registers.get(compared) {
            self.registers.get(new)
        } else {
            found
        }
    }
}
