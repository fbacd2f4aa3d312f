//! Judges the stream on standard input and prints the lines.

#![tactic(auto)]

use std::io;
use std::io::{Read, Write};
use stream::judge_stream;

fn main(rt: HostRuntime) -> io::Result<()> {
    let mut bytes = Vec::new(rt.alloc());
    rt.stdin().read_to_end(&mut bytes)?;
    let out = judge_stream(rt.alloc(), &bytes)?;
    rt.stdout().write_all(&out)
}
