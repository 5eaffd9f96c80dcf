//! Which counters are above their bounds, as bits in words.

ghost use Rattle.std.specs.Prelude.{◌≡◌, ◌≤◌, Bool, false, List, length, slice_index_or, sum_by, count_ones};
ghost use Rattle.std.specs.Int.{div_ceil};
ghost use Rattle.std.specs.Simd.Lanes.{mask_l};
ghost use Rattle.lanes.specs.Kernels.{over, count_true, packed, is_set};

use crate::block;

/// Sets bit `i % 64` of word `i / 64` exactly where `counters[i]` is above `bounds[i]`; all other bits become 0.
pub fn mask_over(counters: &[u64], bounds: &[u64], out: &mut [u64])
    requires columns { length counters.now ≡ length bounds.now }
    requires words { length out.old ≡ div_ceil (length counters.now) 64 }
    ensures { out.new ≡ packed (over counters.now bounds.now) }
{
    for index in 0..out.len() {
        let start = 64 * index;
        let end = counters.len().min(start + 64);
        out[index] = word_over(&counters[start..end], &bounds[start..end]);
    }
}

/// The same for at most 64 counters, in one word.
#[inline(always)]
fn word_over(counters: &[u64], bounds: &[u64]) -> u64
    requires columns { length counters.now ≡ length bounds.now }
    requires few { length counters.now ≤ 64 }
    ensures { result ≡ mask_l (over counters.now bounds.now) }
{
    let (blocks, rest) = counters.as_chunks::<8>();
    let (bound_blocks, bound_rest) = bounds.as_chunks::<8>();
    let mut word = 0;
    for index in 0..blocks.len() {
        word |= block::mask_over(&blocks[index], &bound_blocks[index]) << (8 * index);
    }
    for index in 0..rest.len() {
        word |= u64::from(rest[index] > bound_rest[index]) << (8 * blocks.len() + index);
    }
    word
}

/// Whether bit `i % 64` of word `i / 64` is 1, false past the last word.
pub fn is_set(mask: &[u64], i: usize) -> bool
    ensures bit { result ≡ is_set mask.now i }
    ensures packed { (bits : List Bool) → mask.now ≡ packed bits → result ≡ slice_index_or bits i false }
{
    mask.get(i / 64)
        .is_some_and(|word| (word >> (i % 64)) & 1 == 1)
}

/// How many counters are above their bounds.
pub fn count_over(counters: &[u64], bounds: &[u64]) -> usize
    requires { length counters.now ≡ length bounds.now }
    ensures { result ≡ count_true (over counters.now bounds.now) }
{
    let (blocks, rest) = counters.as_chunks::<8>();
    let (bound_blocks, bound_rest) = bounds.as_chunks::<8>();
    let mut count = 0;
    for index in 0..blocks.len() {
        count += block::mask_over(&blocks[index], &bound_blocks[index]).count_ones() as usize;
    }
    for index in 0..rest.len() {
        count += usize::from(rest[index] > bound_rest[index]);
    }
    count
}

/// A mask has as many ones as there were true bits to pack: `count_over` counts what `mask_over` sets.
pub fn masks_keep_counts()
    ensures { (bits : List Bool) → sum_by count_ones (packed bits) ≡ count_true bits }
{}
