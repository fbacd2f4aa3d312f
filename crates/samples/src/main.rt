//! Runs a table of streams through the judge, and prints what comes of each on a line of its own.
//!
//! A line of the table has a stream's name, a tab, and its bytes in hexadecimal. Where another tab
//! and a number follow, zeros are added until the stream has so many bytes.

#![tactic(auto)]

ghost use Rattle.std.specs.Prelude.{◌<◌};

use std::alloc::{AllocError, Global};
use std::io::Write;
use std::{fs, io};
use stream::judge_stream;

// The value of a hexadecimal digit. Any other byte counts as 0, a capital letter too: so it is no
// digit of the kit's hex, which refuses the one and takes the other.
fn digit(byte: u8) -> u8
    ensures { result < 16 }
{
    match byte {
        b'0'..=b'9' => byte - b'0',
        b'a'..=b'f' => byte - b'a' + 10,
        _ => 0,
    }
}

// The stream that a line of the table has after its name. A last digit that is alone is left out.
fn stream_of(heap: Global, digits: &str, size: &str) -> Result<Vec<u8>, AllocError> {
    let mut bytes = Vec::new(heap);
    for [high, low] in digits.as_bytes().as_chunks::<2>().0 {
        bytes.push(digit(*high) * 16 + digit(*low))?;
    }
    if let Ok(size) = size.parse::<u16>() {
        let most = bytes.len().max(usize::from(size));
        bytes.resize(most, 0)?;
    }
    Ok(bytes)
}

// Adds lines as one line, with a bar between two.
fn join(lines: &[u8], out: &mut Vec<u8>) -> Result<(), AllocError> {
    let Some((last, others)) = lines.split_last() else {
        return Ok(());
    };
    for byte in others {
        if *byte == b'\n' {
            out.extend_from_slice(b" | ")?;
        } else {
            out.push(*byte)?;
        }
    }
    out.push(*last)?;
    Ok(())
}

// Adds what comes of a line of the table.
fn judge_line(heap: Global, line: &str, out: &mut Vec<u8>) -> Result<(), AllocError> {
    let mut fields = line.split('\t');
    let name = fields.next().unwrap_or("");
    let digits = fields.next().unwrap_or("");
    let size = fields.next().unwrap_or("");
    let stream = stream_of(heap, digits, size)?;
    out.extend_from_slice(name.as_bytes())?;
    out.extend_from_slice(b": ")?;
    let lines = judge_stream(heap, &stream)?;
    join(&lines, out)
}

fn main(rt: HostRuntime) -> io::Result<()> {
    let table = fs::read_to_string(&rt, "streams.txt")?;
    let mut out = Vec::new(rt.alloc());
    for line in table.lines() {
        judge_line(rt.alloc(), line, &mut out)?;
    }
    rt.stdout().write_all(&out)
}
