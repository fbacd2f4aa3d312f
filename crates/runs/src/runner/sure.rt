ghost use Rattle.std.specs.Prelude.{◌≡◌, ◌-◌, ◌<◌, ◌≤◌, ◌==◌, true};
ghost use Rattle.snippet.specs.Program.{choices_b};
ghost use Rattle.snippet.specs.Layout.{block, after, command_of};
ghost use Rattle.snippet.specs.Meant.{sizes_of, program_of};
ghost use Rattle.runs.specs.Walk.{block_in};
ghost use Rattle.runs.specs.Sure.{sure_b, sure_c, NeverIdle};

use crate::span::Span;
use snippet::{Body, Snippet, Statement};

// How many choices the statements of a span take in every run.
#[cycle(sure)]
#[tactic(auto, using(snippet::proofs::Blocks::block_end, snippet::proofs::Blocks::block_then))]
fn sure_block(body: &Body, span: Span) -> u8
    ensures value { result ≡ sure_b (block_in body.now span) }
    ensures few { result ≤ span.to - span.at }
{
    if span.at == span.to {
        return 0;
    }
    let statement = body.statements[span.at];
    sure_statement(body, statement, span) + sure_block(body, span.past(statement))
}

// How many choices the statement at a span's first place takes in every run, with its blocks.
#[cycle(sure)]
fn sure_statement(body: &Body, statement: Statement, span: Span) -> u8
    requires { span.at < span.to }
    ensures value { result ≡ sure_c (command_of (block body.now.statements) statement span.at span.to) }
    ensures few { result ≤ after statement span.at span.to - span.at }
{
    match statement {
        Statement::Declare { inner, .. } => sure_block(body, span.rest().split(inner).0),
        _ => u8::from(statement.takes_choice()),
    }
}

/// Whether every statement that takes a choice stands in no if. No run is idle then.
#[tactic(auto, using(crate::proofs::Idle::never_idle))]
pub fn never_idle(snippet: &Snippet) -> bool
    ensures value { result ≡ (sure_b (program_of snippet.now) == choices_b (program_of snippet.now)) }
    ensures law { result ≡ true → NeverIdle (sizes_of snippet.now) (program_of snippet.now) }
{
    sure_block(&snippet.body, Span::whole(&snippet.body)) == snippet.choices
}
