ghost use Rattle.std.specs.Prelude.{◌≡◌, ◌++◌, OnOk};
ghost use Rattle.lines.specs.Lines.{numbers_of, written};

use lines::{Line, write_line};
use std::alloc::AllocError;

/// Adds a line to what is printed.
pub(crate) fn print(line: Line, out: &mut Vec<u8>) -> Result<(), AllocError>
    ensures { OnOk result (out.new.items ≡ out.old.items ++ written (numbers_of line)) }
{
    let mut bytes = [0; 24];
    match write_line(line, &mut bytes) {
        Ok(length) => out.extend_from_slice(&bytes[..length]),
        // any line fits
        Err(_) => unreachable(),
    }
}
