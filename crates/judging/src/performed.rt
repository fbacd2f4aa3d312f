ghost use Rattle.std.specs.Prelude.{◌≤◌};

use runs::Registers;
use trace::Event;

/// A run as it was carried out: its word is the first `length` events.
#[derive(Clone, Copy)]
pub(crate) struct Performed {
    // an array and how much of it counts: nothing here allocates, and the run fills it as a slice
    pub(crate) events: [Event; 48],
    pub(crate) length: usize,
    pub(crate) start: Registers,
    pub(crate) end: Registers,
    pub(crate) idle: bool,
    ghost few: { length ≤ 48 },
}
