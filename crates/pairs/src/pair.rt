ghost use Rattle.std.specs.Prelude.{◌≡◌};

use snippet::Snippet;

/// The two snippets of a pair file. Both have its limits.
#[derive(Clone, Copy)]
pub struct Pair {
    pub original: Snippet,
    pub replacement: Snippet,
    ghost same_values: { replacement.body.limits.values ≡ original.body.limits.values },
    ghost same_registers: { replacement.body.limits.registers ≡ original.body.limits.registers },
    ghost same_locations: { replacement.body.limits.locations ≡ original.body.limits.locations },
}
