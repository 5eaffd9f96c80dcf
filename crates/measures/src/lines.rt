//! Sample operations, written as lines and read back: whether they are the same, and how many per second.

mod agreement;
mod samples;
mod times;

use samples::all_samples;
use std::alloc::Global;
use std::io;
use std::time::Clock;

/// Prints for each sample whether what is written is read back the same.
pub fn compare(rt: &impl Print, alloc: Global) -> io::Result<()> {
    match all_samples(alloc) {
        Ok(samples) => agreement::compare(rt, alloc, samples.as_slice()),
        Err(why) => println!(rt; "there are no samples: {why}"),
    }
}

/// Prints for each sample how many operations are written and read per second.
pub fn report<R: Print + Clock>(rt: &R, alloc: Global) -> io::Result<()> {
    match all_samples(alloc) {
        Ok(samples) => times::report(rt, alloc, samples.as_slice()),
        Err(why) => println!(rt; "there are no samples: {why}"),
    }
}
