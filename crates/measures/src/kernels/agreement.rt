//! Whether each kernel and its plain loop answer and write the same. This is proved: a run tests what a compiler made of both.

ghost use Rattle.std.specs.Prelude.{◌≡◌, length, IfOk, IsTrue, IsNone};
ghost use Rattle.std.specs.Int.{div_ceil};

use crate::kernels::kernel::{Kernel, Way};
use crate::kernels::numbers::numbers;
use std::alloc::{AllocError, Global};
use std::io;

/// None, less than a block, a block, and more; a word of a mask, and many.
const WIDTHS: [usize; 8] = [0, 1, 7, 8, 9, 64, 256, 4096];

/// Prints for each kernel whether it agrees with its plain loop.
pub fn compare(rt: &impl Print, alloc: Global) -> io::Result<()> {
    for kernel in Kernel::ALL {
        let name = kernel.name();
        match first_difference(alloc, kernel)? {
            None => println!(rt; "{name} agrees at {} widths", WIDTHS.len())?,
            Some(width) => println!(rt; "{name} differs at width {width}")?,
        }
    }
    Ok(())
}

/// The first of the widths at which a kernel and its plain loop differ.
fn first_difference(alloc: Global, kernel: Kernel) -> Result<Option<usize>, AllocError>
    ensures { IfOk result IsNone }
{
    for width in WIDTHS {
        for seed in 0..4 {
            if !is_same(alloc, kernel, width, seed)? {
                return Ok(Some(width));
            }
        }
    }
    Ok(None)
}

/// Whether both answer and write the same on generated columns. An odd seed makes equal columns.
fn is_same(alloc: Global, kernel: Kernel, width: usize, seed: u64) -> Result<bool, AllocError>
    ensures { IfOk result IsTrue }
{
    let mut first = numbers(alloc, width, seed)?;
    let mut other_first = first.clone()?;
    let second = numbers(alloc, width, seed | 1)?;
    let mut mask = vec![in alloc; 0; width.div_ceil(64)]?;
    let mut other_mask = mask.clone()?;
    Ok(leave_the_same(
        kernel,
        &second,
        &mut first,
        &mut mask,
        &mut other_first,
        &mut other_mask,
    ))
}

/// Runs a kernel in lanes on one column and one mask, and its plain loop on others. Returns whether both answer and write the same.
fn leave_the_same(
    kernel: Kernel,
    second: &[u64],
    first: &mut [u64],
    mask: &mut [u64],
    other_first: &mut [u64],
    other_mask: &mut [u64],
) -> bool
    requires columns { length first.old ≡ length second.now }
    requires words { length mask.old ≡ div_ceil (length second.now) 64 }
    requires same_column { other_first.old ≡ first.old }
    requires same_mask { other_mask.old ≡ mask.old }
    ensures { IsTrue result }
{
    let answer = kernel.answer(Way::Lanes, first, second, mask);
    let other = kernel.answer(Way::Plain, other_first, second, other_mask);
    answer == other && *first == *other_first && *mask == *other_mask
}
