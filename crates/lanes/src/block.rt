//! One step of each kernel: what it does to eight counters, one in each lane.

ghost use Rattle.std.specs.Prelude.{◌≡◌, max, nat_le, nat_eq};
ghost use Rattle.std.specs.Cmp.Lexicographic.{pointwise};
ghost use Rattle.std.specs.Simd.Lanes.{zip2, mask_l};
ghost use Rattle.lanes.specs.Kernels.{over};

use std::simd::prelude::*;

/// Eight counters.
pub(crate) type Block = [u64; 8];

/// Whether each counter is at most the one in its lane.
#[inline(always)]
pub(crate) fn all_le(a: &Block, b: &Block) -> bool
    ensures { result ≡ pointwise nat_le a.now b.now }
{
    u64x8::from_array(*a).simd_le(u64x8::from_array(*b)).all()
}

/// Whether each counter equals the one in its lane.
#[inline(always)]
pub(crate) fn all_eq(a: &Block, b: &Block) -> bool
    ensures { result ≡ pointwise nat_eq a.now b.now }
{
    u64x8::from_array(*a).simd_eq(u64x8::from_array(*b)).all()
}

/// The greater of each two counters, lane by lane.
#[inline(always)]
pub(crate) fn greater(a: u64x8, b: &Block) -> u64x8
    ensures { result ≡ zip2 max a b.now }
{
    a.simd_max(u64x8::from_array(*b))
}

/// The lanes in which the counter is above the bound, the first as the lowest bit.
#[inline(always)]
pub(crate) fn mask_over(counters: &Block, bounds: &Block) -> u64
    ensures { result ≡ mask_l (over counters.now bounds.now) }
{
    u64x8::from_array(*counters)
        .simd_gt(u64x8::from_array(*bounds))
        .to_bitmask()
}
