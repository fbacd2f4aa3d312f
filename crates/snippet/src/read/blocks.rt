ghost use Rattle.std.specs.Prelude.{◌≡◌, ◌<◌, length, OnOk};
ghost use Rattle.snippet.specs.Keeps.{sizes};
ghost use Rattle.snippet.specs.Parse.{branch_at, declare_at, parse_c, body_at};
ghost use Rattle.snippet.specs.Reads.{Gives, ReadsBlock, ReadsNested, ReadsStatement, placed, Under, After};

use super::{Laid, Reader, Source, refused};
use crate::body::{Body, MOST};
use crate::limits::Limits;
use crate::statement::Statement;
use trace::{Cause, Refusal};

impl Reader<'_> {
    /// Takes the rest of the block. A statement's place is kept until those of its blocks are counted.
    #[cycle(blocks)]
    fn block(mut self, out: &mut Laid) -> Result<(), Refusal>
        ensures { ReadsBlock self.entry out.old result out.new }
    {
        // a statement takes as many bytes as it takes, so no iterator knows where the next one is
        while self.at < self.source.end {
            let place = out.len;
            if place >= MOST {
                return refused(Cause::TooMuch, self.at);
            }
            out.len += 1;
            let statement = self.statement(out)?;
            out.statements[place] = statement;
        }
        Ok(())
    }

    /// Takes a statement, and lays those of its blocks.
    #[cycle(blocks)]
    fn statement(&mut self, out: &mut Laid) -> Result<Statement, Refusal>
        requires { self.old.at < self.old.source.end }
        ensures reads { ReadsStatement parse_c self.old out.old result self.new out.new }
        ensures ahead { OnOk result (self.old.at < self.new.at) }
        ensures source { self.new.source ≡ self.old.source }
    {
        // the two numbers of the format that have blocks
        match self.source.bytes[self.at] {
            11 => self.branch(out),
            12 => self.declared(out),
            _ => self.leaf(),
        }
    }

    /// Takes an if.
    #[cycle(blocks)]
    fn branch(&mut self, out: &mut Laid) -> Result<Statement, Refusal>
        requires { self.old.at < self.old.source.end }
        ensures reads { ReadsStatement branch_at self.old out.old result self.new out.new }
        ensures ahead { OnOk result (self.old.at < self.new.at) }
        ensures source { self.new.source ≡ self.old.source }
    {
        // `statement` has looked at the number.
        self.number();
        Ok(Statement::If {
            register: self.operand(self.source.limits.registers)?,
            nonzero: self.nested(out)?,
            zero: self.nested(out)?,
        })
    }

    /// Takes a declared register.
    #[cycle(blocks)]
    fn declared(&mut self, out: &mut Laid) -> Result<Statement, Refusal>
        requires { self.old.at < self.old.source.end }
        ensures reads { ReadsStatement declare_at self.old out.old result self.new out.new }
        ensures ahead { OnOk result (self.old.at < self.new.at) }
        ensures source { self.new.source ≡ self.old.source }
    {
        // `statement` has looked at the number.
        self.number();
        Ok(Statement::Declare {
            register: self.operand(self.source.limits.registers)?,
            value: self.operand(self.source.limits.values)?,
            inner: self.nested(out)?,
        })
    }

    /// Takes an inner block, and answers how many statements it has.
    #[cycle(blocks)]
    fn nested(&mut self, out: &mut Laid) -> Result<u8, Refusal>
        ensures reads { ReadsNested self.old out.old result self.new out.new }
        ensures ahead { OnOk result (self.old.at < self.new.at) }
        ensures source { self.new.source ≡ self.old.source }
    {
        let span = self.source.span(self.at)?;
        if self.source.depth >= 8 {
            return refused(Cause::TooMuch, self.at);
        }
        let mut source = self.source;
        source.depth += 1;
        source.end = span.end;
        let inner = Reader {
            source,
            at: span.start,
        };
        let before = out.len;
        inner.block(out)?;
        self.at = span.end;
        // it fits, since there are at most `MOST`
        Ok((out.len - before) as u8)
    }
}

/// The body whose length stands at `at`, and the place after it. The places of refusals count from the first byte.
pub fn read_body(bytes: &[u8], limits: Limits, at: usize) -> Result<(Body, usize), Refusal>
    ensures gives { Gives result (body_at (sizes limits) bytes.now at) placed }
    ensures limits { Under result limits }
    ensures after { After result (length bytes.now) }
{
    let mut source = Source {
        bytes,
        limits,
        depth: 0,
        end: bytes.len(),
    };
    let span = source.span(at)?;
    source.end = span.end;
    let mut out = Laid {
        statements: [Statement::Skip; MOST],
        len: 0,
    };
    Reader {
        source,
        at: span.start,
    }
    .block(&mut out)?;
    let body = Body {
        limits,
        statements: out.statements,
        len: out.len,
    };
    Ok((body, span.end))
}
