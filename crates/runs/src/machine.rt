ghost use Rattle.std.specs.Prelude.{◌≤◌, length};

use crate::choices::Choices;
use crate::full::Full;
use crate::registers::Registers;
use snippet::Body;
use trace::Event;

// A run on its way: what it has yet to choose, its registers, and the caller's events, the first of them written.
#[derive(Drop)]
pub(crate) struct Machine<'a> {
    pub(crate) body: &'a Body,
    pub(crate) choices: Choices,
    pub(crate) registers: Registers,
    // lent by the caller, to whom it is told what they hold
    pub(crate) events: &'a mut [Event],
    pub(crate) written: usize,
    ghost room: { written ≤ length events.now },
}
