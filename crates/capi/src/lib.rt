//! The judge as a C function, for programs in other languages.

#![tactic(auto)]

ghost use Rattle.stream.specs.Printed.{PrintedOnce};
ghost use Rattle.capi.specs.Written.{Filled, Written};

use std::alloc::Global;
use stream::judge_stream;

// Puts the lines at the beginning of the caller's bytes, if there is room for all of them.
fn fill(out: &mut [u8], lines: &[u8])
    ensures { Filled lines.now out.old out.new }
{
    let n = lines.len();
    if n <= out.len() {
        out[..n].copy_from_slice(lines);
    }
}

/// Judges a stream. Answers false for want of memory, and then changes nothing. Otherwise `length` is
/// how many bytes the lines for the stream have; they stand at the beginning of `out` if it has room
/// for all of them, and else `out` is as it was.
///
/// In C: `bool bankcheck_judge(const uint8_t *stream, size_t stream_len, uint8_t *out, size_t out_len,
/// size_t *length)`.
#[unsafe(no_mangle)]
pub extern "C" fn bankcheck_judge(
    heap: Global,
    stream: &[u8],
    out: &mut [u8],
    length: &mut usize,
) -> bool
    ensures written { Written result stream.now out.old out.new length.old length.new }
    ensures once { PrintedOnce stream.now }
{
    match judge_stream(heap, stream) {
        Ok(lines) => {
            fill(out, &lines);
            *length = lines.len();
            true
        }
        // C knows no Result
        Err(_) => false,
    }
}

#[cfg(test)]
mod tests {
    use super::bankcheck_judge;

    // The lines for a stream without bytes, and the byte behind them as it was.
    #[test]
    fn writes_lines(rt: HostRuntime) {
        let mut out = [7; 6];
        let mut length = 0;
        assert!(rt; bankcheck_judge(rt.alloc(), &[], &mut out, &mut length));
        assert_eq!(rt; length, 5);
        assert_eq!(rt; out, *b"18 0\n\x07");
    }

    // Too little room: the length is told, and nothing is written.
    #[test]
    fn tells_length(rt: HostRuntime) {
        let mut out = [7; 4];
        let mut length = 0;
        assert!(rt; bankcheck_judge(rt.alloc(), &[], &mut out, &mut length));
        assert_eq!(rt; length, 5);
        assert_eq!(rt; out, [7; 4]);
    }
}
