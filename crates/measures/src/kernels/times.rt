//! How long a call of each kernel takes, and how long its plain loop takes.

ghost use Rattle.std.specs.Prelude.{◌≡◌, ◌+◌, ◌^◌, ◌<◌, length};
ghost use Rattle.std.specs.Int.{div_ceil};

use crate::kernels::kernel::{Kernel, Way};
use crate::kernels::numbers::numbers;
use std::alloc::Global;
use std::fmt::{Display, Formatter, Write};
use std::time::{Clock, Instant};
use std::{fmt, io};

const WIDTHS: [usize; 5] = [1, 8, 64, 256, 4096];

/// How many rounds are timed; the best one counts.
const ROUNDS: usize = 7;

/// The distance between the two starts: a line of the processor's cache.
const STEP: usize = 8;

/// The time of one call in tenths of a nanosecond, with the sum of all answers.
#[derive(Clone, Copy, Debug)]
struct Time {
    tenths: u64,
    answers: u64,
}

impl Display for Time {
    fn fmt<W: Write>(&self, f: &mut Formatter<W>) -> fmt::Result {
        write!(f, "{}.{}", self.tenths / 10, self.tenths % 10)
    }
}

/// Prints a line for each kernel and width: the times in nanoseconds, and how many times faster the lanes are.
pub fn report<R: Print + Clock>(rt: &R, alloc: Global) -> io::Result<()> {
    for kernel in Kernel::ALL {
        for width in WIDTHS {
            let lanes = time_of(rt, alloc, kernel, Way::Lanes, width)?;
            let plain = time_of(rt, alloc, kernel, Way::Plain, width)?;
            let hundredths = plain.tenths.saturating_mul(100) / lanes.tenths.max(1);
            println!(rt;
                "{} of {width}: {lanes} ns in lanes, {plain} ns plainly, {}.{:02} times as fast{}",
                kernel.name(),
                hundredths / 100,
                hundredths % 100,
                if lanes.answers == plain.answers {
                    ""
                } else {
                    ", with other answers"
                }
            )?;
        }
    }
    Ok(())
}

/// The time on generated columns. For tests of equality both columns are equal, so that each counter is compared.
fn time_of<R: Clock>(
    rt: &R,
    alloc: Global,
    kernel: Kernel,
    way: Way,
    width: usize,
) -> io::Result<Time>
    requires { width < 2 ^ 16 }
{
    let seed = match kernel {
        Kernel::AllLe | Kernel::AllEq => 1,
        _ => 2,
    };
    let mut first = numbers(alloc, width + STEP, 1)?;
    let second = numbers(alloc, width + STEP, seed)?;
    let mut mask = vec![in alloc; 0; width.div_ceil(64)]?;
    best_of_rounds(rt, kernel, way, &mut first, &second, &mut mask, width)
}

/// The best time of `ROUNDS` rounds.
fn best_of_rounds<R: Clock>(
    rt: &R,
    kernel: Kernel,
    way: Way,
    first: &mut [u64],
    second: &[u64],
    mask: &mut [u64],
    width: usize,
) -> io::Result<Time>
    requires small { width < 2 ^ 16 }
    requires first { length first.old ≡ width + STEP }
    requires second { length second.now ≡ width + STEP }
    requires words { length mask.old ≡ div_ceil width 64 }
{
    let mut best = measured(rt, kernel, way, first, second, mask, width)?;
    for _ in 1..ROUNDS {
        let next = measured(rt, kernel, way, first, second, mask, width)?;
        if next.tenths < best.tenths {
            best = next;
        }
    }
    Ok(best)
}

/// The time of many calls, from two starts in turn, so that no answer is known from the call before.
fn measured<R: Clock>(
    rt: &R,
    kernel: Kernel,
    way: Way,
    first: &mut [u64],
    second: &[u64],
    mask: &mut [u64],
    width: usize,
) -> io::Result<Time>
    requires small { width < 2 ^ 16 }
    requires first { length first.old ≡ width + STEP }
    requires second { length second.now ≡ width + STEP }
    requires words { length mask.old ≡ div_ceil width 64 }
{
    let tens = 400_000 / (width as u64 + 8);
    let started = Instant::now(rt)?;
    let mut answers = 0_u64;
    for call in 0..10 * tens {
        let start = STEP * (call % 2) as usize;
        let end = start + width;
        let answer = kernel.answer(way, &mut first[start..end], &second[start..end], mask);
        answers = answers.wrapping_add(answer);
    }
    let elapsed = started.elapsed(rt)?.as_nanos();
    let nanos = u64::try_from(elapsed).unwrap_or(u64::MAX);
    Ok(Time {
        tenths: nanos / tens,
        answers,
    })
}
