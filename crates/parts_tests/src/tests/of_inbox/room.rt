//! How much may wait: 4,096 operations, and one more that is ready.

use super::*;

const FULL: Result<Delivered, Refusal> = Err(Refusal::InboxFull);

#[test]
fn a_slot_is_held_for_what_is_ready(rt: HostRuntime) {
    const TURNS: &[Turn] = &[
        Turn::Len(4096),
        Turn::Smallest(None),
        Turn::Put((4098, 2), [0, 0, 4097], Writes::Map, FULL),
        Turn::Put((2, 2), [0, 0, 1], Writes::Map, Ok(Delivered::Known)),
        FIRST_OF_2,
        Turn::Put((1, 3), [0, 0, 0], Writes::Map, FULL),
        Turn::Smallest(Some((1, 2))),
        Turn::Take((1, 2), MAP),
        FIRST_OF_3,
        Turn::Smallest(Some((1, 3))),
        Turn::Len(4097),
    ];
    on_new(&rt, rt.alloc(), 4096, &[], TURNS)
}
