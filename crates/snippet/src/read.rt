ghost use Rattle.std.specs.Prelude.{◌≡◌, ◌+◌, ◌<◌, ◌≤◌, [], ◌∷◌, length, slice_index, IfOk, OnOk};
ghost use Rattle.snippet.specs.Keeps.{sizes};
ghost use Rattle.snippet.specs.Layout.{flat_c};
ghost use Rattle.snippet.specs.declared.body.TheConstants.{MOST};
ghost use Rattle.snippet.specs.Parse.{declined, operand_at, span_at, leaf_at};

use crate::body::MOST;
use crate::limits::Limits;
use crate::statement::Statement;
use std::ops::Range;
use trace::{Cause, Refusal};

// The reader of blocks stands below, so that what it uses here stays private.
mod blocks;

pub use blocks::read_body;

/// A block in the bytes: how deep it lies, and where it ends.
#[derive(Clone, Copy)]
struct Source<'a> {
    bytes: &'a [u8],
    limits: Limits,
    depth: usize,
    end: usize,
    ghost within: { end ≤ length bytes.now },
    ghost shallow: { depth ≤ 8 },
}

/// Takes what a block holds, from the place where it stands.
#[derive(Clone, Copy)]
struct Reader<'a> {
    source: Source<'a>,
    at: usize,
    ghost inside: { at ≤ source.end },
}

/// The statements that were read, each before those of its blocks.
#[derive(Clone, Copy)]
struct Laid {
    // as a body keeps them
    statements: [Statement; MOST],
    len: usize,
    ghost full: { length statements ≡ MOST },
    ghost few: { len ≤ MOST },
}

impl Source<'_> {
    /// Where the block whose length stands at a place begins and ends.
    fn span(&self, at: usize) -> Result<Range<usize>, Refusal>
        ensures value { result ≡ span_at self.now.bytes.now at self.now.end }
        ensures start { IfOk result (λ span. span.start ≡ at + 2) }
        ensures order { IfOk result (λ span. span.start ≤ span.end) }
        ensures bound { IfOk result (λ span. span.end ≤ self.now.end) }
    {
        if self.end.saturating_sub(at) < 2 {
            return refused(Cause::Missing, at);
        }
        let start = at + 2;
        let length = u16::from_be_bytes([self.bytes[at], self.bytes[at + 1]]);
        let length = usize::from(length);
        if self.end - start < length {
            return refused(Cause::Missing, at);
        }
        Ok(start..start + length)
    }
}

impl Reader<'_> {
    ghost use Rattle.snippet.specs.Reads.{Gives, leaf_of};

    /// Takes the number of a statement.
    fn number(&mut self) -> u8
        requires { self.old.at < self.old.source.end }
        ensures value { result ≡ slice_index self.old.source.bytes.now self.old.at }
        ensures next { self.new.at ≡ self.old.at + 1 }
        ensures source { self.new.source ≡ self.old.source }
    {
        let number = self.source.bytes[self.at];
        self.at += 1;
        number
    }

    /// Takes an operand, which is below its limit.
    fn operand(&mut self, limit: u8) -> Result<u8, Refusal>
        ensures value { result ≡ operand_at self.old.source.bytes.now self.old.at self.old.source.end limit }
        ensures next { OnOk result (self.new.at ≡ self.old.at + 1) }
        ensures source { self.new.source ≡ self.old.source }
    {
        if self.at == self.source.end {
            return refused(Cause::Missing, self.at);
        }
        let value = self.source.bytes[self.at];
        if value >= limit {
            return refused(Cause::Unknown, self.at);
        }
        self.at += 1;
        Ok(value)
    }

    /// Takes a statement without blocks.
    fn leaf(&mut self) -> Result<Statement, Refusal>
        requires { self.old.at < self.old.source.end }
        ensures gives { Gives result (leaf_at (sizes self.old.source.limits) self.old.source.bytes.now self.old.at self.old.source.end) (λ s. (leaf_of s, self.new.at)) }
        ensures ahead { OnOk result (self.old.at < self.new.at) }
        ensures flat { IfOk result (λ s. flat_c (leaf_of s) ≡ s ∷ []) }
        ensures source { self.new.source ≡ self.old.source }
    {
        let Limits {
            values,
            registers,
            locations,
        } = self.source.limits;
        let place = self.at;
        // the numbers of the format: this match is their table
        match self.number() {
            0 => Ok(Statement::Skip),
            1 => Ok(Statement::Load {
                register: self.operand(registers)?,
                location: self.operand(locations)?,
            }),
            2 => Ok(Statement::Store {
                location: self.operand(locations)?,
                register: self.operand(registers)?,
            }),
            3 => Ok(Statement::Constant {
                register: self.operand(registers)?,
                value: self.operand(values)?,
            }),
            4 => Ok(Statement::Copy {
                register: self.operand(registers)?,
                from: self.operand(registers)?,
            }),
            5 => Ok(Statement::Sum {
                register: self.operand(registers)?,
                left: self.operand(registers)?,
                right: self.operand(registers)?,
            }),
            6 => Ok(Statement::Equal {
                register: self.operand(registers)?,
                left: self.operand(registers)?,
                right: self.operand(registers)?,
            }),
            7 => Ok(Statement::CompareAndSwap {
                register: self.operand(registers)?,
                location: self.operand(locations)?,
                compared: self.operand(registers)?,
                new: self.operand(registers)?,
            }),
            8 => Ok(Statement::Fence),
            9 => Ok(Statement::Get {
                register: self.operand(registers)?,
            }),
            10 => Ok(Statement::Print {
                register: self.operand(registers)?,
            }),
            _ => refused(Cause::Unknown, place),
        }
    }
}

/// That what stands at a place is declined.
fn refused<T>(cause: Cause, place: usize) -> Result<T, Refusal>
    ensures { result ≡ declined cause place }
{
    Err(Refusal { cause, place })
}
