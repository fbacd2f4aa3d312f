ghost use Rattle.std.specs.Prelude.{◌≡◌};
ghost use Rattle.snippet.specs.Keeps.{sizes};
ghost use Rattle.snippet.specs.Reads.{Gives};
ghost use Rattle.pairs.specs.Meant.{meant, Judged};
ghost use Rattle.pairs.specs.File.{limit_at, sizes_at, end_at, pair_at, From};

use crate::header::check_header;
use crate::pair::Pair;
use snippet::{Limits, Snippet, read_body};
use trace::{Cause, Refusal};

/// The number at a place, from `low` to `high`.
fn limit(bytes: &[u8], at: usize, low: u8, high: u8) -> Result<u8, Refusal>
    ensures value { result ≡ limit_at bytes.now at low high }
    ensures bound { From result low high }
{
    bytes
        .get(at)
        .copied()
        .filter(|value| (low..=high).contains(value))
        .ok_or(Refusal {
            cause: Cause::Head,
            place: at,
        })
}

fn read_limits(bytes: &[u8]) -> Result<Limits, Refusal>
    ensures { Gives result (sizes_at bytes.now) sizes }
{
    let values = limit(bytes, 3, 2, 4)?;
    let registers = limit(bytes, 4, 1, 4)?;
    let locations = limit(bytes, 5, 1, 8)?;
    Ok(Limits {
        values,
        registers,
        locations,
    })
}

/// No byte is left over.
fn check_end(bytes: &[u8], at: usize) -> Result<(), Refusal>
    ensures { result ≡ end_at bytes.now at }
{
    if at == bytes.len() {
        Ok(())
    } else {
        Err(Refusal {
            cause: Cause::Missing,
            place: at,
        })
    }
}

/// The pair whose file the bytes are.
#[tactic(auto, using(crate::proofs::Laws::judged))]
pub fn read_pair(bytes: &[u8]) -> Result<Pair, Refusal>
    ensures gives { Gives result (pair_at bytes.now) meant }
    ensures judged { Judged result bytes.now }
{
    check_header(bytes)?;
    let limits = read_limits(bytes)?;
    let (first, middle) = read_body(bytes, limits, 6)?;
    let (second, end) = read_body(bytes, limits, middle)?;
    check_end(bytes, end)?;
    let original = Snippet::new(first)?;
    let replacement = Snippet::new(second)?;
    Ok(Pair {
        original,
        replacement,
    })
}
