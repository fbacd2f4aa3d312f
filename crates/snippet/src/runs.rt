ghost use Rattle.std.specs.Prelude.{◌≡◌, ◌≤◌, ◌==◌};
ghost use Rattle.snippet.specs.Program.{choices_b};
ghost use Rattle.snippet.specs.Meant.{block_of};
ghost use Rattle.snippet.specs.declared.body.TheConstants.{MOST};
ghost use Rattle.snippet.specs.Runs.{takes, Admitted};

use crate::body::Body;
use crate::snippet::Snippet;
use crate::statement::Statement;
use trace::{Cause, Refusal};

impl Statement {
    /// Whether the statement itself takes a choice.
    pub fn takes_choice(&self) -> bool
        ensures { result ≡ (takes self.now == 1) }
    {
        matches!(
            self,
            Statement::Load { .. } | Statement::CompareAndSwap { .. } | Statement::Get { .. }
        )
    }
}

impl Body {
    /// How many statements take a choice, inner ones counted.
    fn choices(&self) -> u8
        ensures value { result ≡ choices_b (block_of self.now) }
        ensures few { result ≤ MOST }
    {
        let statements = &self.statements[..self.len];
        // it fits, since there are at most `MOST`
        statements.iter().filter(|s| s.takes_choice()).count() as u8
    }
}

impl Snippet {
    /// The snippet of a body, unless it has more than 4,096 runs.
    pub fn new(body: Body) -> Result<Snippet, Refusal>
        ensures { Admitted result body }
    {
        let choices = body.choices();
        let runs = u16::from(body.limits.values)
            .checked_pow(u32::from(body.limits.registers + choices))
            .filter(|runs| *runs <= 4096)
            .ok_or(Refusal {
                cause: Cause::TooManyRuns,
                place: 0,
            })?;
        Ok(Snippet {
            body,
            choices,
            runs,
        })
    }
}
