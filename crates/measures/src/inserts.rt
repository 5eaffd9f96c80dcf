//! Numbers inserted in order one by one, into a vector and into rings: whether both end up the same, and how long an insert takes.

ghost use Rattle.std.specs.Prelude.{◌≡◌, ◌≤◌, length, vec_len};

use rings::Rings;
use std::alloc::Global;
use std::io;
use std::time::CpuClock;

/// In which order the numbers come.
#[derive(Clone, Copy, Debug)]
enum Order {
    Rising,
    Mixed,
    Falling,
    /// The even ones first, and then the odd ones between them, as from a peer that was offline.
    Apart,
}

const ORDERS: [(&str, Order); 4] = [
    ("rising", Order::Rising),
    ("mixed", Order::Mixed),
    ("falling", Order::Falling),
    ("apart", Order::Apart),
];

/// The greatest count for which a vector is timed too: the last inserts of a million would take minutes.
const MOST_IN_VECTOR: u64 = 100_000;

/// The nanoseconds of one insert, and a checksum of the final order.
type Inserted = (u64, u64);

/// Prints for each order whether a vector and rings end up the same.
pub fn compare<R: Print + CpuClock>(rt: &R, alloc: Global) -> io::Result<()> {
    for (name, order) in ORDERS {
        let flat = into_vector(rt, alloc, order, 2_000)?;
        let rings = into_rings(rt, alloc, order, 2_000)?;
        let verb = if flat.1 == rings.1 { "agree" } else { "differ" };
        println!(rt; "rings and a vector {verb} after {name} inserts")?;
    }
    Ok(())
}

/// Prints the nanoseconds of an insert for each order and count.
pub fn report<R: Print + CpuClock>(rt: &R, alloc: Global) -> io::Result<()> {
    for (name, order) in ORDERS {
        for count in [100, 500, 1_000, 10_000, 100_000, 1_000_000] {
            let rings = into_rings(rt, alloc, order, count)?;
            println!(rt; "{name} {count}: {} ns into rings", rings.0)?;
            if count <= MOST_IN_VECTOR {
                let flat = into_vector(rt, alloc, order, count)?;
                println!(rt; "{name} {count}: {} ns into a vector", flat.0)?;
            }
        }
    }
    Ok(())
}

/// The number that comes at this turn.
fn number(order: Order, turn: u64, count: u64) -> u64 {
    match order {
        Order::Rising => turn,
        Order::Mixed => {
            let spread = turn.wrapping_mul(11_400_714_819_323_198_485);
            (spread ^ (spread >> 31)).wrapping_mul(13_787_848_793_156_543_929) >> 8
        }
        Order::Falling => count.saturating_sub(turn),
        Order::Apart => {
            let half = count / 2;
            if turn < half {
                turn.wrapping_mul(2)
            } else {
                turn.saturating_sub(half).wrapping_mul(2).wrapping_add(1)
            }
        }
    }
}

/// Puts the numbers into a vector, each by a binary search.
fn into_vector<R: CpuClock>(
    rt: &R,
    alloc: Global,
    order: Order,
    count: u64,
) -> io::Result<Inserted> {
    let mut numbers: Vec<u64> = Vec::new(alloc);
    let start = nanos(rt)?;
    for turn in 0..count {
        let number = number(order, turn, count);
        let position = numbers.as_slice().partition_point(|other| *other < number);
        numbers.reserve(1)?;
        let _ = numbers.insert(position, number);
    }
    let taken = nanos(rt)?.saturating_sub(start) / count.max(1);
    Ok((taken, sum_of(&numbers)))
}

/// Puts the numbers into rings, each by a binary search.
fn into_rings<R: CpuClock>(
    rt: &R,
    alloc: Global,
    order: Order,
    count: u64,
) -> io::Result<Inserted> {
    let mut numbers: Rings<u64> = Rings::new(alloc);
    let start = nanos(rt)?;
    for turn in 0..count {
        let number = number(order, turn, count);
        let position = position_in(&numbers, number);
        numbers.reserve_one()?;
        numbers.insert(position, number);
    }
    let taken = nanos(rt)?.saturating_sub(start) / count.max(1);
    numbers.make_contiguous();
    Ok((taken, sum_of(numbers.as_slice())))
}

/// The position of a number among ascending ones. A binary search.
fn position_in(numbers: &Rings<u64>, number: u64) -> usize
    ensures { result ≤ length numbers.now.items }
{
    let mut low = 0;
    let mut high = numbers.len();
    while low < high {
        let middle = low + (high - low) / 2;
        if *numbers.get(middle) < number {
            low = middle + 1;
        } else {
            high = middle;
        }
    }
    low
}

/// A checksum of a list that depends on its order.
fn sum_of(numbers: &[u64]) -> u64 {
    let mut sum: u64 = 0;
    for number in numbers {
        sum = sum.wrapping_mul(31).wrapping_add(*number);
    }
    sum
}

/// The nanoseconds of processor time so far.
fn nanos<R: CpuClock>(rt: &R) -> io::Result<u64> {
    let taken = rt.thread_cpu_time()?;
    let seconds = taken.as_secs().saturating_mul(1_000_000_000);
    Ok(seconds.saturating_add(u64::from(taken.subsec_nanos())))
}
