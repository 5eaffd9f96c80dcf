//! Requests, line by line, in bounded memory.

ghost use Rattle.std.specs.Prelude.{◌≤◌, ◌<◌, IfOk, vec_len};

use std::io;
use std::io::{BufRead, Read};

/// The most bytes that a request's line may have, without its line feed.
pub const MOST_LINE: usize = 33_554_432;

/// What was found in the input.
#[derive(Clone, Copy, Debug, PartialEq, Eq)]
pub enum Found {
    /// A line, now in the buffer without its line feed.
    Line,
    /// A line of more bytes than the limit, which was skipped.
    TooLong,
    /// Bytes without a line feed, after which the input ends.
    Cut,
    /// The end.
    End,
}

/// Reads the next line of the input into `line`, replacing its content, if it has at most `most` bytes. A longer one is skipped, without
/// using more memory.
///
/// # Errors
/// Those of the input, and `OutOfMemory` if allocation fails.
pub fn next_line<B: BufRead>(input: &mut B, most: usize, line: &mut Vec<u8>) -> io::Result<Found>
    requires { most < 4294967296 }
    ensures { IfOk result (λ _. vec_len line.new ≤ most) }
{
    line.clear();
    let bound = most as u64 + 1;
    if input.by_ref().take(bound).read_until(b'\n', line)? == 0 {
        return Ok(Found::End);
    }
    let is_whole = line.last() == Some(&b'\n');
    if is_whole {
        line.pop();
    }
    if line.len() > most {
        line.clear();
        if !is_whole {
            input.skip_until(b'\n')?;
        }
        return Ok(Found::TooLong);
    }
    Ok(if is_whole { Found::Line } else { Found::Cut })
}
