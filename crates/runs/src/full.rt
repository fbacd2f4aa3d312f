ghost use Rattle.std.specs.Prelude.{◌≡◌};
ghost use Rattle.trace.specs.declared.refusal.Cause.TheVariants.{NoRoom};
ghost use Rattle.runs.specs.Answers.{declined};

use trace::{Cause, Refusal};

// The caller's events are full, and an event is left.
#[derive(Clone, Copy)]
pub(crate) struct Full;

impl From<Full> for Refusal {
    ghost from_gives = { λ _ refusal. refusal ≡ declined NoRoom };

    fn from(_full: Full) -> Refusal {
        Refusal {
            cause: Cause::NoRoom,
            place: 0,
        }
    }
}
