ghost use Rattle.std.specs.Prelude.{◌≡◌, ◌≤◌, ◌/◌, length, take};
ghost use Rattle.snippet.specs.Reads.{Gives};
ghost use Rattle.handins.specs.File.{step_at, steps_from, derivation_at};
ghost use Rattle.handins.specs.Meant.{meant, Judged};

use crate::hand_in::HandIn;
use pairs::check_header;
use rewrite::Step;
use trace::{Cause, Refusal};

// The steps that the bytes stand for, four bytes each.
fn read_steps(bytes: &[u8]) -> [Step; 64]
    requires few { length bytes.now ≤ 256 }
    ensures steps { take (length bytes.now / 4) result ≡ steps_from bytes.now 0 (length bytes.now / 4) }
    ensures full { length result ≡ 64 }
{
    let mut steps = [Step {
        rule: 0,
        place: 0,
        location: 0,
        value: 0,
    }; 64];
    for (i, chunk) in bytes.as_chunks::<4>().0.iter().enumerate() {
        steps[i] = Step::from(*chunk);
    }
    steps
}

/// The hand-in whose file the bytes are.
#[tactic(auto, using(crate::proofs::Laws::judged))]
pub fn read_hand_in(bytes: &[u8]) -> Result<HandIn, Refusal>
    ensures gives { Gives result (derivation_at bytes.now) meant }
    ensures judged { Judged result bytes.now }
{
    check_header(bytes)?;
    match bytes {
        [_, _, _, to_high, to_low, from_high, from_low, steps @ ..]
            if steps.len() <= 256 && steps.len() % 4 == 0 => {
            Ok(HandIn {
                replacement: u16::from_be_bytes([*to_high, *to_low]),
                original: u16::from_be_bytes([*from_high, *from_low]),
                steps: read_steps(steps),
                count: steps.len() / 4,
            })
        }
        _ => Err(Refusal {
            cause: Cause::HandInLength,
            place: 0,
        }),
    }
}
