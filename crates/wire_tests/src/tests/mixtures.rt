//! Random lists of operations, each on a line of either profile, are read as they were written.

ghost use Rattle.std.specs.Prelude.{◌<◌};

use super::{At, Does, mutation, place};
use ids::Refusal;
use operation::{Op, Shared};
use std::alloc::Global;
use std::process::Abort;
use wire::{BundleWriter, LINE_END, read_bundle, write_op};

/// How many lists are written and read.
const LISTS: u32 = 10_000;

/// The fewest operations of a list.
const FEWEST: u64 = 3;

/// How many more it may have.
const MORE: u64 = 5;

/// The most replicas that their vectors name.
const REPLICAS: usize = 5;

/// A linear congruential generator (Knuth's MMIX).
#[derive(Clone, Copy, Debug)]
struct Dice {
    state: u64,
}

impl Dice {
    /// A number below `sides`.
    fn roll(&mut self, sides: u64) -> u64
        requires { 0 < sides }
        ensures { result < sides }
    {
        self.state = self
            .state
            .wrapping_mul(6_364_136_223_846_793_005)
            .wrapping_add(1_442_695_040_888_963_407);
        (self.state >> 33) % sides
    }
}

/// The places of operations.
const PLACES: [At; 4] = [At::Root, At::List, At::Head, At::Item];

/// What they do there.
const MUTATIONS: [Does; 7] = [
    Does::Map,
    Does::List,
    Does::Number(-12),
    Does::Number(0),
    Does::Insert("eggs"),
    Does::Insert("\"é\n"),
    Does::Delete,
];

/// Changes some of the counters: one is removed, rises by one, or becomes any other.
fn change(dice: &mut Dice, counters: &mut [u64; REPLICAS]) {
    for counter in counters.iter_mut() {
        match dice.roll(6) {
            0 => *counter = 0,
            1 => *counter = counter.saturating_add(1),
            2 => *counter = dice.roll(9).saturating_add(1),
            _ => {}
        }
    }
}

/// An operation with this vector.
fn drawn(rt: &impl Abort, alloc: Global, dice: &mut Dice, counters: &[u64]) -> Shared<Op> {
    let counter = dice.roll(9).saturating_add(1);
    let place = place(alloc, PLACES[dice.roll(4) as usize]).expect(rt, "not refused");
    let mutation = mutation(alloc, MUTATIONS[dice.roll(7) as usize]).expect(rt, "not refused");
    fixtures::op(alloc, (counter, 2), counters, place, mutation).expect(rt, "an operation")
}

/// Appends the operation's line to the others, in a profile chosen by a coin. The writer writes each, so that the next one is relative to
/// it; its line is dropped if the coin says profile 1.
fn put(
    rt: &impl Abort,
    alloc: Global,
    dice: &mut Dice,
    writer: &mut BundleWriter,
    text: &mut Vec<u8>,
    op: &Op,
) {
    let beside = writer.write(alloc, op).expect(rt, "memory");
    if dice.roll(2) == 0 {
        let whole = write_op(alloc, op).expect(rt, "not refused");
        text.extend_from_slice(whole.as_slice())
            .expect(rt, "memory");
    } else {
        text.extend_from_slice(beside.as_slice())
            .expect(rt, "memory");
    }
    text.push(LINE_END).expect(rt, "memory");
}

/// Draws operations, and appends the line of each.
fn draw(
    rt: &impl Abort,
    alloc: Global,
    dice: &mut Dice,
    ops: &mut Vec<Shared<Op>>,
    text: &mut Vec<u8>,
) {
    let mut writer = BundleWriter::new(alloc);
    let mut counters = [0; REPLICAS];
    for _ in 0..FEWEST + dice.roll(MORE + 1) {
        change(dice, &mut counters);
        let op = drawn(rt, alloc, dice, &counters);
        put(rt, alloc, dice, &mut writer, text, &op);
        ops.push(op).expect(rt, "memory");
    }
}

/// Asserts that these operations are read from this bundle.
fn is_read(rt: &impl Abort, alloc: Global, text: &[u8], ops: &[Shared<Op>]) -> Result<(), Refusal> {
    let again = read_bundle(alloc, text).map_err(|stopped| stopped.1)?;
    assert!(rt; again.as_slice() == ops);
    Ok(())
}

/// Asserts that a list is read as it was written.
fn is_read_back(rt: &impl Abort, alloc: Global, dice: &mut Dice) {
    let mut ops = Vec::new(alloc);
    let mut text = Vec::new(alloc);
    draw(rt, alloc, dice, &mut ops, &mut text);
    is_read(rt, alloc, text.as_slice(), ops.as_slice()).expect(rt, "not refused")
}

/// Vectors rise, shrink and change at random, and each line has the profile that a coin says: the operations that are read are those that
/// were written.
#[test]
fn random_mixtures_are_read_back(rt: HostRuntime) {
    let mut dice = Dice { state: 20_261 };
    for _ in 0..LISTS {
        is_read_back(&rt, rt.alloc(), &mut dice);
    }
}
