//! The first eight bytes of a key as a number, which decides most comparisons without a read of the key.

ghost use Rattle.std.specs.Prelude.{◌≡◌, ◌≤◌, slice_index_or};
ghost use Rattle.columns.specs.Prefix.{AreBytes, first_bytes};

/// Returns the first eight bytes of a name as a number, the first byte the highest; a byte past the end is 0. Names whose numbers differ
/// are in the order of these numbers. Names with the same number may differ.
pub fn prefix_of(name: &[u8]) -> u64
    ensures prefix { result ≡ first_bytes 8 name.now }
    ensures bytes { AreBytes name.now }
{
    match name.split_first_chunk::<8>() {
        Some((bytes, _)) => u64::from_be_bytes(*bytes),
        None => short_prefix_of(name),
    }
}

/// The same for any name, of which it reads four bytes at once if it has so many.
fn short_prefix_of(name: &[u8]) -> u64
    ensures prefix { result ≡ first_bytes 8 name.now }
    ensures bytes { AreBytes name.now }
{
    match name.first_chunk::<4>() {
        Some(bytes) => complete(name, u64::from(u32::from_be_bytes(*bytes)), 4),
        None => complete(name, 0, 0),
    }
}

/// Completes the prefix of a name byte by byte: `before` is that of its first `count` bytes.
#[inline(always)]
fn complete(name: &[u8], before: u64, count: usize) -> u64
    requires before { before ≡ first_bytes count name.now }
    requires few { count ≤ 8 }
    ensures prefix { result ≡ first_bytes 8 name.now }
    ensures bytes { AreBytes name.now }
{
    let mut prefix = before;
    for position in count..8 {
        prefix = prefix * 256 + u64::from(byte_at(name, position));
    }
    prefix
}

/// Returns the byte at a position, or 0 past the end.
fn byte_at(name: &[u8], position: usize) -> u8
    ensures { result ≡ slice_index_or name.now position 0 }
{
    name.get(position).copied().unwrap_or(0)
}
