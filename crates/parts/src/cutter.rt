ghost use Rattle.std.specs.Prelude.{◌≤◌, length};

/// What comes next: a value and no closure, so that the parts can be copied.
#[derive(Clone, Copy)]
pub(crate) enum Stage {
    Model,
    Pair,
    HandIns,
}

/// The parts of a stream that have not been taken yet.
#[derive(Clone, Copy)]
pub struct Parts<'a> {
    pub(crate) stream: &'a [u8],
    pub(crate) at: usize,
    pub(crate) stage: Stage,
    ghost inside: { at ≤ length stream.now },
}
