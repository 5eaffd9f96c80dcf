//! What waits is found by its id, and leaves in ascending id order.

use super::*;

#[test]
fn the_smallest_comes_first(rt: HostRuntime) {
    const ORDERS: &[&[Turn]] = &[
        &[FIRST_OF_1, FIRST_OF_2, FIRST_OF_3],
        &[FIRST_OF_3, FIRST_OF_2, FIRST_OF_1],
        &[FIRST_OF_2, FIRST_OF_3, FIRST_OF_1],
        &[FIRST_OF_3, FIRST_OF_1, FIRST_OF_2],
    ];
    const TURNS: &[Turn] = &[
        Turn::Len(3),
        Turn::Smallest(Some((1, 1))),
        Turn::Take((1, 1), MAP),
        Turn::Smallest(Some((1, 2))),
        Turn::Take((1, 2), MAP),
        Turn::Smallest(Some((1, 3))),
        Turn::Take((1, 3), MAP),
        Turn::Len(0),
        Turn::Smallest(None),
    ];
    for order in ORDERS {
        on_new(&rt, rt.alloc(), 0, order, TURNS);
    }
}

/// Of the first operations of three replicas one is taken, and the others are left.
const TAKEN: &[&[Turn]] = &[
    &[
        Turn::Take((1, 1), MAP),
        Turn::Has((1, 1), false),
        Turn::Take((1, 1), None),
        Turn::Len(2),
        Turn::Has((1, 2), true),
        Turn::Has((1, 3), true),
    ],
    &[
        Turn::Take((1, 2), MAP),
        Turn::Has((1, 2), false),
        Turn::Take((1, 2), None),
        Turn::Len(2),
        Turn::Has((1, 1), true),
        Turn::Has((1, 3), true),
    ],
    &[
        Turn::Take((1, 3), MAP),
        Turn::Has((1, 3), false),
        Turn::Take((1, 3), None),
        Turn::Len(2),
        Turn::Has((1, 1), true),
        Turn::Has((1, 2), true),
    ],
];

#[test]
fn any_may_be_taken(rt: HostRuntime) {
    const FIRST: &[Turn] = &[FIRST_OF_2, FIRST_OF_3, FIRST_OF_1];
    for turns in TAKEN {
        on_new(&rt, rt.alloc(), 0, FIRST, turns);
    }
}

#[test]
fn an_id_waits_once(rt: HostRuntime) {
    const TURNS: &[Turn] = &[
        FIRST_OF_2,
        Turn::Put((1, 2), [0, 0, 0], Writes::Delete, Ok(Delivered::Known)),
        Turn::Len(1),
        Turn::Take((1, 2), MAP),
    ];
    on_new(&rt, rt.alloc(), 0, &[], TURNS)
}

#[test]
fn ids_are_counters_with_replicas(rt: HostRuntime) {
    const TURNS: &[Turn] = &[
        FIRST_OF_2,
        Turn::Has((1, 2), true),
        Turn::Has((1, 1), false),
        Turn::Take((1, 1), None),
        Turn::Has((1, 3), false),
        Turn::Take((1, 3), None),
        Turn::Has((2, 2), false),
        Turn::Take((2, 2), None),
        Turn::Len(1),
    ];
    on_new(&rt, rt.alloc(), 0, &[], TURNS)
}

#[test]
fn what_is_stuck_is_passed_over(rt: HostRuntime) {
    const TURNS: &[Turn] = &[
        Turn::Put((2, 2), [0, 1, 0], Writes::Map, KEPT),
        Turn::Smallest(None),
        FIRST_OF_3,
        Turn::Smallest(Some((1, 3))),
        Turn::Take((1, 3), MAP),
        Turn::Smallest(None),
        Turn::Has((2, 2), true),
    ];
    on_new(&rt, rt.alloc(), 0, &[], TURNS)
}

#[test]
fn a_counter_that_nothing_explains_is_no_bar(rt: HostRuntime) {
    const TURNS: &[Turn] = &[
        Turn::Put((3, 3), [0, 2, 0], Writes::Map, KEPT),
        Turn::Put((9, 2), [0, 0, 0], Writes::Map, KEPT),
        Turn::Smallest(Some((9, 2))),
    ];
    on_new(&rt, rt.alloc(), 0, &[], TURNS)
}
