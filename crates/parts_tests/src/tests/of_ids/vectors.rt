//! What vectors name, and how they compare.

use fixtures::{Pair, id_of};
use ids::{NamedVector, ReplicaId};
use std::alloc::Global;
use std::process::Abort;

/// The vector of two pairs, in ascending order of replica.
fn of_two(rt: &impl Abort, alloc: Global, pairs: [Pair; 2]) -> NamedVector {
    let [first, second] = pairs;
    let (first, second) = (
        id_of(first).expect(rt, "an id"),
        id_of(second).expect(rt, "an id"),
    );
    if first.counter == 0 || second.counter == 0 || first.replica >= second.replica {
        panic!(rt; "no vector");
    }
    let mut vector = NamedVector::new(alloc);
    vector.push(first).expect(rt, "memory");
    vector.push(second).expect(rt, "memory");
    vector
}

/// The counter that the vector names of the replica with this number.
fn named(vector: &NamedVector, number: u32) -> u64 {
    ReplicaId::new(number).map_or(0, |replica| vector.at(replica))
}

#[test]
fn a_new_vector_names_nothing(rt: HostRuntime) {
    let vector = NamedVector::new(rt.alloc());
    assert_eq!(rt; vector.ids().len(), 0);
    assert_eq!(rt; vector.greatest(), 0);
    assert_eq!(rt; named(&vector, 1), 0);
    assert!(rt; vector.covers(id_of((0, 1)).expect(&rt, "an id")));
    assert!(rt; !vector.covers(id_of((1, 1)).expect(&rt, "an id")));
}

#[test]
fn a_vector_names_its_replicas_alone(rt: HostRuntime) {
    let vector = of_two(&rt, rt.alloc(), [(9, 3), (4, 4_294_967_295)]);
    assert_eq!(rt; vector.greatest(), 9);
    for (number, counter) in [
        (2, 0),
        (3, 9),
        (4, 0),
        (4_294_967_294, 0),
        (4_294_967_295, 4),
    ] {
        assert_eq!(rt; named(&vector, number), counter, "of {number}");
    }
    let copy = vector.clone().expect(&rt, "memory");
    assert!(rt; copy == vector);
    assert!(rt; NamedVector::of(rt.alloc(), vector.ids()).expect(&rt, "not refused") == vector);
    assert!(rt; vector != NamedVector::new(rt.alloc()));
}

#[test]
fn a_vector_covers_up_to_its_counters(rt: HostRuntime) {
    let vector = of_two(&rt, rt.alloc(), [(9, 3), (4, 5)]);
    for (pair, covered) in [
        ((9, 3), true),
        ((10, 3), false),
        ((4, 5), true),
        ((5, 5), false),
        ((1, 4), false),
    ] {
        assert_eq!(rt;
            vector.covers(id_of(pair).expect(&rt, "an id")),
            covered,
            "of {pair:?}"
        );
    }
}

/// Two vectors, and whether each is at most the other.
type Beside = ([Pair; 2], [Pair; 2], (bool, bool));

const BESIDE: [Beside; 7] = [
    ([(1, 1), (1, 2)], [(1, 1), (1, 2)], (true, true)),
    ([(1, 1), (1, 2)], [(1, 1), (2, 2)], (true, false)),
    ([(2, 1), (1, 2)], [(1, 1), (2, 2)], (false, false)),
    ([(1, 1), (1, 3)], [(1, 2), (1, 3)], (false, false)),
    ([(1, 1), (1, 2)], [(1, 3), (1, 4)], (false, false)),
    ([(3, 1), (5, 9)], [(3, 1), (6, 9)], (true, false)),
    ([(3, 8), (5, 9)], [(2, 8), (6, 9)], (false, false)),
];

fn assert_beside(rt: &impl Abort, alloc: Global, row: Beside) {
    let (first, second, want) = row;
    let (one, other) = (of_two(rt, alloc, first), of_two(rt, alloc, second));
    let are = (one.is_at_most(other.ids()), other.is_at_most(one.ids()));
    assert_eq!(rt; are, want, "{first:?} beside {second:?}");
}

#[test]
fn vectors_are_compared_replica_by_replica(rt: HostRuntime) {
    for row in BESIDE {
        assert_beside(&rt, rt.alloc(), row);
    }
    let (nothing, two) = (
        NamedVector::new(rt.alloc()),
        of_two(&rt, rt.alloc(), [(1, 1), (1, 2)]),
    );
    assert!(rt; nothing.is_at_most(two.ids()));
    assert!(rt; !two.is_at_most(nothing.ids()));
    assert!(rt; nothing.is_at_most(nothing.ids()));
}
