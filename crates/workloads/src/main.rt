//! Plays what users wait for, on engines, and prints a digest of all their answers: the words are a job, how much of it, and a seed.
//!
//! The file `stdout` has what a proved build of commit 48e0743, with this crate added, printed.
#![tactic(auto)]

mod days;
mod digest;
mod draws;
mod jobs;
mod places;
mod showing;
mod stage;
mod writing;

use draws::Hands;
use jobs::{DEVICES, play};
use std::{env, io};

fn main(rt: HostRuntime) -> io::Result<()> {
    let mut words = env::args(&rt)?.skip(1);
    let (Some(job), Some(count), Some(seed)) = (words.next(), words.next(), words.next()) else {
        return println!(rt; "usage: workloads JOB COUNT SEED [DEVICES]");
    };
    let (Ok(count), Ok(seed)) = (count.as_str().parse::<u32>(), seed.as_str().parse::<u32>()) else {
        return println!(rt; "COUNT and SEED are numbers below 4294967296");
    };
    let devices = words
        .next()
        .map_or(Ok(DEVICES), |word| word.as_str().parse::<u32>());
    let Ok(devices) = devices else {
        return println!(rt; "DEVICES is a number below 4294967296");
    };
    let mut hands = Hands::new(rt.alloc(), seed);
    match play(&rt, rt.alloc(), &mut hands, job.as_str(), count, devices) {
        Ok(()) => {
            let (answers, digest) = (hands.digest.answers(), hands.digest.value());
            println!(rt; "{job}: {answers} answers, digest {digest:016x}")
        }
        Err(refusal) => println!(rt; "{job}: {refusal}"),
    }
}
