//! Compares kernels with plain loops, rings with a vector, and operations with what is read back from their lines. With the word `time` it
//! also prints how long each takes.
#![tactic(auto)]

mod inserts;
mod kernels;
mod lines;

use std::{env, io};

fn main(rt: HostRuntime) -> io::Result<()> {
    let is_timed = is_time_asked(&rt)?;
    kernels::compare(&rt, rt.alloc())?;
    inserts::compare(&rt, rt.alloc())?;
    lines::compare(&rt, rt.alloc())?;
    if is_timed {
        kernels::report(&rt, rt.alloc())?;
        inserts::report(&rt, rt.alloc())?;
        lines::report(&rt, rt.alloc())?;
    }
    Ok(())
}

/// Whether one of the words after the program's own name is `time`.
fn is_time_asked(rt: &HostRuntime) -> io::Result<bool> {
    let mut words = env::args(rt)?.skip(1);
    Ok(words.any(|word| word.as_str() == "time"))
}
