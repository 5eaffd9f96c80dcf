//! Tests of two columns, counter by counter.

ghost use Rattle.std.specs.Prelude.{◌≡◌, ◌↔◌, nat_le, length, IsTrue};
ghost use Rattle.std.specs.Cmp.Lexicographic.{pointwise};

use crate::block;

/// Whether each counter of `a` is at most the one at the same index of `b`. True for empty slices. Stops at the first block of
/// eight that fails.
pub fn all_le(a: &[u64], b: &[u64]) -> bool
    requires { length a.now ≡ length b.now }
    ensures { result ≡ pointwise nat_le a.now b.now }
{
    let (blocks, rest) = a.as_chunks::<8>();
    let (other_blocks, other_rest) = b.as_chunks::<8>();
    blocks
        .iter()
        .zip(other_blocks)
        .all(|(x, y)| block::all_le(x, y))
        && rest.iter().zip(other_rest).all(|(x, y)| *x <= *y)
}

/// Whether the columns are equal. True for empty slices. Stops at the first block of eight that fails.
pub fn all_eq(a: &[u64], b: &[u64]) -> bool
    requires { length a.now ≡ length b.now }
    ensures { IsTrue result ↔ (a.now ≡ b.now) }
{
    let (blocks, rest) = a.as_chunks::<8>();
    let (other_blocks, other_rest) = b.as_chunks::<8>();
    blocks
        .iter()
        .zip(other_blocks)
        .all(|(x, y)| block::all_eq(x, y))
        && rest.iter().zip(other_rest).all(|(x, y)| *x == *y)
}
