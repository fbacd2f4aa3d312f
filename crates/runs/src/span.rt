ghost use Rattle.std.specs.Prelude.{◌≤◌};

// Places of a body's statements: those from `at` up to `to`.
#[derive(Clone, Copy)]
pub(crate) struct Span {
    pub(crate) at: usize,
    pub(crate) to: usize,
    ghost ordered: { at ≤ to },
    ghost within: { to ≤ 32 },
}
