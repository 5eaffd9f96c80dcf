//! The texts of a line with their escapes undone, as the JSON writer makes them.

ghost use Rattle.std.specs.Prelude.{◌<◌, length, IfSome};

use std::alloc::Global;

/// How many bytes precede the text's closing quote, the first one that isn't escaped. `None` if there is none. Looks at each of these
/// bytes.
pub(crate) fn closed_at(text: &[u8]) -> Option<usize>
    ensures { IfSome result (λ end. end < length text.now) }
{
    let mut is_escaped = false;
    for (position, byte) in text.iter().enumerate() {
        if is_escaped {
            is_escaped = false;
        } else if *byte == b'"' {
            return Some(position);
        } else {
            is_escaped = *byte == b'\\';
        }
    }
    None
}

/// The text of these bytes. `None` if one is escaped by its number, which is rare, or in a way that the writer doesn't use, or if
/// allocation fails.
pub(crate) fn unescaped(alloc: Global, bytes: &[u8]) -> Option<Vec<u8>> {
    let mut text = Vec::with_capacity(alloc, bytes.len()).ok()?;
    let mut is_escaped = false;
    for byte in bytes {
        if *byte == b'\\' && !is_escaped {
            is_escaped = true;
            continue;
        }
        let plain = if is_escaped {
            escaped_by(*byte)?
        } else {
            *byte
        };
        is_escaped = false;
        if text.push(plain).is_err() {
            return None;
        }
    }
    Some(text)
}

/// The byte that a letter means after a backslash.
fn escaped_by(letter: u8) -> Option<u8> {
    match letter {
        b'"' | b'\\' => Some(letter),
        b'n' => Some(b'\n'),
        b't' => Some(b'\t'),
        b'r' => Some(b'\r'),
        b'b' => Some(0x08),
        b'f' => Some(0x0c),
        _ => None,
    }
}
