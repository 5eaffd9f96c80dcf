//! The tests of `inbox`: what waits, in which order it leaves, and how much may wait. Each test is a table of turns that `play` plays.

mod order;
mod playing;
mod room;

use ids::Refusal;
use operation::Delivered;
use playing::{Turn, Writes, on_new};

const MAP: Option<Writes> = Some(Writes::Map);

const KEPT: Result<Delivered, Refusal> = Ok(Delivered::Kept);

/// Puts the first operation of replica 1, which is kept. It depends on nothing, so it is ready.
const FIRST_OF_1: Turn = Turn::Put((1, 1), [0, 0, 0], Writes::Map, KEPT);

/// The same for replica 2.
const FIRST_OF_2: Turn = Turn::Put((1, 2), [0, 0, 0], Writes::Map, KEPT);

/// The same for replica 3.
const FIRST_OF_3: Turn = Turn::Put((1, 3), [0, 0, 0], Writes::Map, KEPT);

#[test]
fn new_inboxes_are_empty(rt: HostRuntime) {
    const TURNS: &[Turn] = &[
        Turn::Len(0),
        Turn::Has((1, 2), false),
        Turn::Room(false, true),
        Turn::Take((1, 2), None),
    ];
    on_new(&rt, rt.alloc(), 0, &[], TURNS)
}
