//! The greatest counter of a column, and the greater of each two.

ghost use Rattle.std.specs.Prelude.{◌≡◌, ◌+◌, ◌*◌, ◌≤◌, max, length};
ghost use Rattle.std.specs.Simd.Lanes.{zip2, chunk, put_chunk};
ghost use Rattle.lanes.specs.Kernels.{greatest};

use crate::block::{Block, greater};
use std::simd::prelude::*;

/// The greatest counter, 0 for an empty slice.
pub fn greatest(a: &[u64]) -> u64
    ensures { result ≡ greatest a.now }
{
    let (blocks, rest) = a.as_chunks::<8>();
    let mut lanes = u64x8::splat(0);
    for block in blocks {
        lanes = greater(lanes, block);
    }
    greatest_of_few(&lanes.to_array()).max(greatest_of_few(rest))
}

/// The same, one by one.
fn greatest_of_few(counters: &[u64]) -> u64
    ensures { result ≡ greatest counters.now }
{
    let mut most = 0;
    for counter in counters {
        most = most.max(*counter);
    }
    most
}

/// Each counter of `a` becomes the greater of it and the one at the same index of `b`.
pub fn max_into(a: &mut [u64], b: &[u64])
    requires { length a.old ≡ length b.now }
    ensures { a.new ≡ zip2 max a.old b.now }
{
    let (blocks, _) = b.as_chunks::<8>();
    for (index, block) in blocks.iter().enumerate() {
        raise_block(a, 8 * index, block);
    }
    for index in 8 * blocks.len()..b.len() {
        a[index] = a[index].max(b[index]);
    }
}

/// The same for the eight counters from `start` on.
#[inline(always)]
fn raise_block(a: &mut [u64], start: usize, block: &Block)
    requires { start + 8 ≤ length a.old }
    ensures { a.new ≡ put_chunk start a.old (zip2 max (chunk start 8 a.old) block.now) }
{
    greater(u64x8::from_slice(&a[start..]), block).copy_to_slice(&mut a[start..]);
}
