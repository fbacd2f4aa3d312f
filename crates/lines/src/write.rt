ghost use Rattle.std.specs.Prelude.{◌≡◌, ◌+◌, ◌<◌, ◌≤◌, [], ◌∷◌, ◌++◌, length, take, drop, if◌then◌else◌, Ok, Err, decimal, nat_lt};
ghost use Rattle.lines.specs.Lines.{numbers_of, written, read_line, longest, room};

use crate::line::Line;
use arrayvec::ArrayString;
use itoa::Buffer;
use trace::{Cause, Refusal};

/// The most bytes that a line can have.
const LONGEST: usize = 24;

// Appends a number and the character that ends it.
#[inline]
fn push_number(text: &mut ArrayString<LONGEST>, number: usize, end: char)
    requires room { length text.old.bytes + length (decimal number) < longest }
    requires ascii { end < 128 }
    ensures { text.new.bytes ≡ text.old.bytes ++ decimal number ++ end ∷ [] }
{
    text.push_str(Buffer::new().format(number));
    text.push(end);
}

// The text of a line that has these numbers, which can be read back. It is put together here and not
// by Display, since no contract says that a `write!` succeeds.
#[tactic(auto, using(crate::proofs::Bytes::read_written), unfolding(crate::specs::Lines::written))]
#[inline]
fn text_of(numbers: &[usize]) -> ArrayString<LONGEST>
    requires { length (written numbers.now) ≤ longest }
    ensures text { result.bytes ≡ written numbers.now }
    ensures reads { read_line (written numbers.now) ≡ numbers.now }
{
    let mut text = ArrayString::new();
    if let Some((last, others)) = numbers.split_last() {
        for number in others {
            push_number(&mut text, *number, ' ');
        }
        push_number(&mut text, *last, '\n');
    }
    text
}

#[tactic(auto, using(crate::proofs::Bytes::answer_fits, crate::proofs::Bytes::report_fits))]
fn line_text(line: Line) -> ArrayString<LONGEST>
    ensures text { result.bytes ≡ written (numbers_of line) }
    ensures fits { length (written (numbers_of line)) ≤ longest }
    ensures reads { read_line (written (numbers_of line)) ≡ numbers_of line }
{
    match line {
        Line::Answer(Ok(())) => text_of(&[0, 0]),
        Line::Answer(Err(refusal)) => {
            text_of(&[usize::from(refusal.cause.number()), refusal.place])
        }
        Line::Report(report) => text_of(&[
            usize::from(report.model),
            usize::from(report.active),
            usize::from(report.matched),
            usize::from(report.lowest.is_some()),
            usize::from(report.lowest.unwrap_or(0)),
        ]),
    }
}

/// Writes a line into the caller's bytes, and gives its length. Any line fits 24 bytes; fewer are
/// declined, whatever the line is.
pub fn write_line(line: Line, out: &mut [u8]) -> Result<usize, Refusal>
    ensures answer { result ≡ room (length out.old) (length (written (numbers_of line))) }
    ensures bytes { out.new ≡ (if nat_lt (length out.old) longest then out.old else written (numbers_of line) ++ drop (length (written (numbers_of line))) out.old) }
    ensures reads { elim result [ Ok n ↦ (n ≤ longest) × (read_line (take n out.new) ≡ numbers_of line) | Err e ↦ length out.old < longest ] }
{
    if out.len() < LONGEST {
        return Err(Refusal {
            cause: Cause::NoRoom,
            place: 0,
        });
    }
    let text = line_text(line);
    out[..text.len()].copy_from_slice(text.as_bytes());
    Ok(text.len())
}
