ghost use Rattle.std.specs.Prelude.{◌≡◌};
ghost use Rattle.trace.specs.Refusals.{number_of};

/// Why a file or a call is declined, with its number. docs/REFUSALS.md says when each cause holds.
#[derive(Clone, Copy, Debug, PartialEq, Eq)]
pub enum Cause {
    Short = 1,
    Version = 2,
    Length = 3,
    Head = 4,
    Missing = 5,
    Unknown = 6,
    TooMuch = 7,
    TooManyRuns = 8,
    HandInLength = 9,
    NoSuchRun = 10,
    IdleRun = 11,
    StartRegisters = 12,
    Misfit = 13,
    Forbidden = 14,
    Overlong = 15,
    Ending = 16,
    NoRoom = 17,
    Stream = 18,
}

/// A cause, with the place in a file or the number of a step where it holds.
#[derive(Clone, Copy, Debug, PartialEq, Eq)]
pub struct Refusal {
    pub cause: Cause,
    pub place: usize,
}

impl Cause {
    /// The number that is printed for the cause.
    pub fn number(self) -> u8
        ensures { result ≡ number_of self }
    {
        self as u8
    }
}
