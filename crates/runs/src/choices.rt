use std::marker::Model;

// The digits of a run's number that are not taken yet: `left` digits of `rest`, the lowest first.
#[derive(Drop)]
pub(crate) struct Choices {
    pub(crate) base: u8,
    pub(crate) left: u8,
    pub(crate) rest: u16,
}

// Clauses see the choices that are left.
impl Model for Choices {
    ghost use Rattle.std.specs.Prelude.{List, ℕ, ◌^◌, ◌<◌, ◌≤◌};
    ghost use Rattle.runs.specs.Runs.{digits};

    ghost Value = { List ℕ };

    ghost view = { λ c. digits c.base c.left c.rest };

    ghost invariant = { λ c. (2 ≤ c.base) × (c.rest < c.base ^ c.left) };
}
