//! Generated numbers, the same in each run.

ghost use Rattle.std.specs.Prelude.{◌≡◌, length, IfOk};

use std::alloc::{AllocError, Global};

/// This many numbers, half of them near 0 and half near the greatest one. Equal seeds give equal numbers.
pub fn numbers(alloc: Global, width: usize, seed: u64) -> Result<Vec<u64>, AllocError>
    ensures { IfOk result (λ numbers. length numbers.items ≡ width) }
{
    let mut numbers = vec![in alloc; 0; width]?;
    let mut state = seed;
    for index in 0..numbers.len() {
        state = state
            .wrapping_mul(6_364_136_223_846_793_005)
            .wrapping_add(1_442_695_040_888_963_407);
        let small = state >> 60;
        let is_small = (state >> 40) & 1 == 0;
        numbers[index] = if is_small { small } else { u64::MAX - small };
    }
    Ok(numbers)
}
