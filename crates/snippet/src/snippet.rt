ghost use Rattle.std.specs.Prelude.{◌≡◌, ◌+◌, ◌^◌, ◌≤◌};
ghost use Rattle.snippet.specs.Layout.{block};
ghost use Rattle.snippet.specs.Program.{choices_b};

use crate::body::Body;

/// A snippet that keeps the limits: besides those of its body, it has at most 4,096 runs.
#[derive(Clone, Copy)]
pub struct Snippet {
    pub body: Body,
    // how many statements take a choice, inner ones counted
    pub choices: u8,
    pub runs: u16,
    ghost counted: { choices ≡ choices_b (block body.statements 0 body.len) },
    ghost powered: { runs ≡ body.limits.values ^ (body.limits.registers + choices) },
    ghost bounded: { runs ≤ 4096 },
}
