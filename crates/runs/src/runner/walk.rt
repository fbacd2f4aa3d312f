ghost use Rattle.std.specs.Prelude.{◌≡◌, ◌<◌, slice_set};
ghost use Rattle.snippet.specs.Program.{branch, declare};
ghost use Rattle.snippet.specs.Layout.{block, command_of};
ghost use Rattle.runs.specs.Held.{held};
ghost use Rattle.runs.specs.Walk.{Restored, Walks, block_in, of_block, of_command};

use crate::full::Full;
use crate::machine::Machine;
use crate::span::Span;
use snippet::Statement;
use trace::Event;

// The calls stand below, so that the walk that they use stays private.
mod calls;

pub use calls::{run, start_registers};

// Gives a declared register its former value back on every way out.
struct Declared<'a, 'b> {
    machine: &'a mut Machine<'b>,
    register: u8,
    former: u8,
}

impl Drop for Declared<'_, '_> {
    fn drop(self)
        ensures registers { held self.exit.0.now.registers ≡ slice_set (held self.entry.machine.now.registers) self.entry.register self.entry.former }
        ensures body { self.exit.0.now.body ≡ self.entry.machine.now.body }
        ensures choices { self.exit.0.now.choices ≡ self.entry.machine.now.choices }
        ensures events { self.exit.0.now.events ≡ self.entry.machine.now.events }
        ensures written { self.exit.0.now.written ≡ self.entry.machine.now.written }
    {
        let Declared {
            machine,
            register,
            former,
        } = self;
        machine.registers.put(register, former);
    }
}

impl Machine<'_> {
    // Carries out the statements of a span, one after another: where the next is, only the one before tells.
    #[cycle(walk)]
    #[tactic(auto, using(snippet::proofs::Blocks::block_end))]
    fn run_block(&mut self, span: Span) -> Result<(), Full>
        ensures { Walks (of_block self.old (block_in self.old.body.now span)) self.old self.new result }
    {
        if span.at == span.to {
            return Ok(());
        }
        let statement = self.body.statements[span.at];
        self.run_statement(statement, span)?;
        self.run_block(span.past(statement))
    }

    // Carries out the statement at a span's first place, with its blocks.
    #[cycle(walk)]
    fn run_statement(&mut self, statement: Statement, span: Span) -> Result<(), Full>
        requires { span.at < span.to }
        ensures { Walks (of_command self.old (command_of (block self.old.body.now.statements) statement span.at span.to)) self.old self.new result }
    {
        match statement {
            Statement::Skip => Ok(()),
            Statement::Load { register, location } => {
                let value = self.choices.next();
                self.emit_found(Event::Load { location, value }, value, register)
            }
            Statement::Store { location, register } => {
                let value = self.registers.get(register);
                self.emit(Event::Store { location, value })
            }
            Statement::Constant { register, value } => {
                self.registers.put(register, value);
                Ok(())
            }
            Statement::Copy { register, from } => {
                let value = self.registers.get(from);
                self.registers.put(register, value);
                Ok(())
            }
            Statement::Sum {
                register,
                left,
                right,
            } => {
                let sum = self.sum(left, right);
                self.registers.put(register, sum);
                Ok(())
            }
            Statement::Equal {
                register,
                left,
                right,
            } => {
                let equal = self.registers.get(left) == self.registers.get(right);
                self.registers.put(register, u8::from(equal));
                Ok(())
            }
            Statement::CompareAndSwap {
                register,
                location,
                compared,
                new,
            } => {
                let found = self.choices.next();
                let left = self.swapped(found, compared, new);
                let event = Event::LoadStore {
                    location,
                    found,
                    left,
                };
                self.emit_found(event, found, register)
            }
            Statement::Fence => self.emit(Event::Fence),
            Statement::Get { register } => {
                let value = self.choices.next();
                self.emit_found(Event::Get { value }, value, register)
            }
            Statement::Print { register } => {
                let value = self.registers.get(register);
                self.emit(Event::Print { value })
            }
            Statement::If {
                register,
                nonzero,
                zero,
            } => {
                let (first, others) = span.rest().split(nonzero);
                let (second, _) = others.split(zero);
                self.run_branch(register, first, second)
            }
            Statement::Declare {
                register,
                value,
                inner,
            } => {
                let (block, _) = span.rest().split(inner);
                self.run_declared(register, value, block)
            }
        }
    }

    // The block of an if that its register picks.
    #[cycle(walk)]
    fn run_branch(&mut self, register: u8, nonzero: Span, zero: Span) -> Result<(), Full>
        ensures { Walks (of_command self.old (branch register (block_in self.old.body.now nonzero) (block_in self.old.body.now zero))) self.old self.new result }
    {
        if self.registers.get(register) == 0 {
            self.run_block(zero)
        } else {
            self.run_block(nonzero)
        }
    }

    // The block of a declare: the register has its former value again however the block ends.
    #[cycle(walk)]
    #[tactic(auto, using(crate::proofs::Laid::put_back))]
    fn run_declared(&mut self, register: u8, value: u8, span: Span) -> Result<(), Full>
        ensures restored { Restored register (held self.old.registers) (held self.new.registers) }
        ensures walks { Walks (of_command self.old (declare register value (block_in self.old.body.now span))) self.old self.new result }
    {
        let former = self.registers.get(register);
        self.registers.put(register, value);
        let guard = Declared {
            machine: self,
            register,
            former,
        };
        guard.machine.run_block(span)
    }
}
