ghost use Rattle.std.specs.Prelude.{◌≡◌, ◌≤◌, length};
ghost use Rattle.rewrite.specs.declared.working.TheConstants.{MOST};

use ordering::Removal;
use trace::{Access, Event};

// How many events a working word has at most.
pub(crate) const MOST: usize = 48;

/// The word that the steps work on: at most 48 events.
#[derive(Clone, Copy)]
pub struct Working {
    // an array and how much of it counts: nothing here allocates, and a word is copied
    pub(crate) events: [Event; MOST],
    pub(crate) len: usize,
    ghost room: { length events ≡ MOST },
    ghost ok: { len ≤ MOST },
}

/// A step as it is written: a rule's number, a place, and for rule 7 a location and a value.
#[derive(Clone, Copy, Debug, PartialEq, Eq)]
pub struct Step {
    // a number as it is written, since one that names no rule is refused only in its turn
    pub rule: u8,
    pub place: u8,
    pub location: u8,
    pub value: u8,
}

/// What a program has: values below `values`, and locations below `locations`.
#[derive(Clone, Copy, Debug, PartialEq, Eq)]
pub struct Ranges {
    pub values: u8,
    pub locations: u8,
}

/// The rules 1 to 7, in this order.
#[derive(Clone, Copy, Debug, PartialEq, Eq)]
pub enum Rule {
    Swap,
    Forward,
    LoadAfterLoad,
    StoreBeforeStore,
    StoreAfterLoad,
    LoadAfterStore,
    NewLoad,
}

/// What a rule asks of the model for the events that it fits.
#[derive(Clone, Copy, Debug, PartialEq, Eq)]
pub enum Question {
    MaySwap(Access, Access),
    Forwards(u8),
    Permits(Removal, u8),
    // rules 3, 4 and 7 are open on every model; that a rule does not fit is no question at all
    Nothing,
}

/// Why a step is denied.
#[derive(Clone, Copy, Debug, PartialEq, Eq)]
pub enum Denied {
    // 13: it does not fit the word
    Misfit,
    // 14: the model says no
    Forbidden,
    // 15: the word would have 49 events
    Overlong,
}

/// The first step that is denied, counted from 0.
#[derive(Clone, Copy, Debug, PartialEq, Eq)]
pub struct Stopped {
    pub step: usize,
    pub why: Denied,
}
