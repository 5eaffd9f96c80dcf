//! Replica numbers, and the order and the text of ids.

use ids::{OpId, ReplicaId};

fn id(counter: u64, replica: u32) -> Option<OpId> {
    let replica = ReplicaId::new(replica)?;
    Some(OpId { counter, replica })
}

#[test]
fn replicas_are_numbered_from_one(rt: HostRuntime) {
    for (number, want) in [
        (0, None),
        (1, Some(1)),
        (4_294_967_295, Some(4_294_967_295)),
    ] {
        assert_eq!(rt;
            ReplicaId::new(number).map(|replica| replica.number()),
            want,
            "at {number}"
        );
    }
}

#[test]
fn ids_rise_by_counter_then_replica(rt: HostRuntime) {
    let rising = [
        id(1, 1),
        id(1, 2),
        id(1, 4_294_967_295),
        id(2, 1),
        id(4_611_686_018_427_387_904, 1),
    ];
    for (earlier, a) in rising.iter().enumerate() {
        for (later, b) in rising.iter().enumerate() {
            assert_eq!(rt; a.cmp(b), earlier.cmp(&later), "at {earlier} and {later}");
        }
    }
}

#[test]
fn ids_are_printed(rt: HostRuntime) {
    let id = id(12, 3).expect(&rt, "no replica");
    assert_eq!(rt;
        format!(in rt.alloc(); "{id}")
            .expect(&rt, "memory")
            .as_str(),
        "12@3"
    );
}
