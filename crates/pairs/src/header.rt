ghost use Rattle.std.specs.Prelude.{◌≡◌, ◌≤◌, length, OnOk};
ghost use Rattle.pairs.specs.File.{header_at};

use trace::{Cause, Refusal};

/// Checks what pair files and hand-ins have in common: the version byte and the length of what follows.
pub fn check_header(bytes: &[u8]) -> Result<(), Refusal>
    ensures value { result ≡ header_at bytes.now }
    ensures long { OnOk result (3 ≤ length bytes.now) }
{
    let [version, high, low, rest @ ..] = bytes else {
        return Err(Refusal {
            cause: Cause::Short,
            place: 0,
        });
    };
    if *version != 1 {
        return Err(Refusal {
            cause: Cause::Version,
            place: 0,
        });
    }
    if usize::from(u16::from_be_bytes([*high, *low])) != rest.len() {
        return Err(Refusal {
            cause: Cause::Length,
            place: 1,
        });
    }
    Ok(())
}
