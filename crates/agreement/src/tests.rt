//! Plays the same on the engine of a world and on an engine of threads, on one thread, and compares their answers.

mod acts;
mod both;
mod dice;
mod interleavings;
mod orders;
mod peers;

use acts::random_acts;
use both::play;
use dice::Dice;

/// The number of plays, and the number of acts of each.
const PLAYS: u64 = 40;

const ACTS: u32 = 120;

#[test]
fn both_say_the_same(rt: HostRuntime) {
    let alloc = rt.alloc();
    for seed in 0..PLAYS {
        let acts = random_acts(&rt, alloc, Dice::new(seed), ACTS);
        play(&rt, alloc, 4, 3, acts.as_slice());
    }
}
