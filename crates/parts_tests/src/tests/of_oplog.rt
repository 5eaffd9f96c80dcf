//! The tests of `oplog`: the entries of a log, and the positions of what a vector lacks.

ghost use Rattle.std.specs.Prelude.{◌≡◌, false, IsTrue};
ghost use Rattle.ids.specs.Tables.{lacks_room};
ghost use Rattle.semantics.specs.LegalHistory.{has_id};
ghost use Rattle.semantics.specs.Entries.{applied};

use cursor::{Expr, Place};
use fixtures::{Pair, counted, id_of, pair_of};
use ids::{OpId, Refusal, ReplicaId, ReplicaTable};
use operation::{Command, Entry, Mutation, Op, Shared};
use oplog::Log;
use std::alloc::Global;
use std::process::Abort;
use value::{Scalar, Val};

/// An assign at the root, for a table of three.
fn op(rt: &impl Abort, alloc: Global, pair: Pair, counters: &[u64; 3]) -> Shared<Op> {
    let mutation = Mutation::Assign(Val::Scalar(Scalar::Whole(7)));
    fixtures::op(alloc, pair, counters, Place::doc(alloc), mutation).expect(rt, "an operation")
}

/// An own entry of client 0.
fn own(rt: &impl Abort, alloc: Global, serial: u64, pair: Pair, counters: &[u64; 3]) -> Entry {
    let op = op(rt, alloc, pair, counters);
    let root = Expr::root(alloc);
    let command = Command::Assign(root, Val::Scalar(Scalar::Whole(7)));
    let command = Shared::new(alloc, command).expect(rt, "memory");
    Entry::Own {
        client: 0,
        serial,
        command,
        op,
    }
}

/// A peer's entry.
fn peer(rt: &impl Abort, alloc: Global, pair: Pair, counters: &[u64; 3]) -> Entry {
    Entry::Peer(op(rt, alloc, pair, counters))
}

/// A log of the replicas 1, 2 and 3.
fn new_log(rt: &impl Abort, alloc: Global) -> Log {
    let table = ReplicaTable::new(alloc, &[1, 2, 3]).expect(rt, "a table");
    if table.len() != 3 {
        panic!(rt; "another table");
    }
    Log::new(alloc, table).expect(rt, "a log")
}

/// Whether an operation with this id was applied.
fn has(log: &Log, id: OpId) -> bool
    ensures { result ≡ has_id (applied log.now.entries) id }
{
    log.find(id).is_some()
}

/// Whether the table has room for the operation's replica and the operation wasn't applied.
fn fits(log: &Log, op: &Op) -> bool
    ensures fits { IsTrue result → lacks_room log.now.table op.now.id.replica ≡ false }
    ensures new { IsTrue result → has_id (applied log.now.entries) op.now.id ≡ false }
{
    !log.table().lacks_room_for(op.id.replica) && !has(log, op.id)
}

/// Appends an entry, but refuses one whose operation doesn't fit.
fn append(alloc: Global, log: &mut Log, entry: Entry) -> Result<(), Refusal> {
    log.reserve_one(alloc)?;
    if !fits(log, entry.op()) {
        return Err(Refusal::UnknownReplica);
    }
    log.push(entry);
    Ok(())
}

/// The positions of what a vector of these counters lacks.
fn missing(rt: &impl Abort, alloc: Global, log: &Log, counters: &[u64; 3]) -> Vec<usize> {
    let vector = counted(alloc, counters).expect(rt, "a vector");
    log.missing(alloc, &vector).expect(rt, "the positions")
}

/// Replica 1 assigned, both saw it, and then each assigned: 1@1, 2@1 and 2@2, with the table 1, 2, 3.
fn log(rt: &impl Abort, alloc: Global) -> Log {
    let mut log = new_log(rt, alloc);
    append(alloc, &mut log, own(rt, alloc, 1, (1, 1), &[0, 0, 0])).expect(rt, "an entry that fits");
    append(alloc, &mut log, own(rt, alloc, 2, (2, 1), &[1, 0, 0])).expect(rt, "an entry that fits");
    append(alloc, &mut log, peer(rt, alloc, (2, 2), &[1, 0, 0])).expect(rt, "an entry that fits");
    log
}

/// The id at a position.
fn id_at(log: &Log, position: usize) -> Option<Pair> {
    Some(pair_of(log.get(position)?.op().id))
}

/// Asserts the position of an id.
fn assert_found(rt: &impl Abort, log: &Log, pair: Pair, want: Option<usize>) {
    let id = id_of(pair).expect(rt, "an id");
    assert_eq!(rt; log.find(id), want, "of {id}");
}

/// Asserts that just these ids are in the log, in this order.
fn assert_ids(rt: &impl Abort, log: &Log, want: &[Pair]) {
    assert_eq!(rt; log.len(), want.len());
    for (position, pair) in want.iter().enumerate() {
        assert_eq!(rt; id_at(log, position), Some(*pair), "at {position}");
        assert_found(rt, log, *pair, Some(position));
    }
}

/// Asserts that none of these ids is in the log.
fn assert_absent(rt: &impl Abort, log: &Log, pairs: &[Pair]) {
    for pair in pairs {
        assert_found(rt, log, *pair, None);
    }
}

#[test]
fn entries_stand_in_order(rt: HostRuntime) {
    let log = log(&rt, rt.alloc());
    assert_ids(&rt, &log, &[(1, 1), (2, 1), (2, 2)]);
    assert_absent(&rt, &log, &[(1, 2), (2, 3), (3, 1), (0, 1), (1, 4)]);
    assert!(rt; log.get(3).is_none());
    assert_eq!(rt; log.table().len(), 3);
}

#[test]
fn others_join_behind_the_members(rt: HostRuntime) {
    let alloc = rt.alloc();
    let mut log = log(&rt, alloc);
    append(alloc, &mut log, peer(&rt, alloc, (1, 9), &[0, 0, 0])).expect(&rt, "an entry that fits");
    append(alloc, &mut log, peer(&rt, alloc, (1, 5), &[2, 0, 0])).expect(&rt, "an entry that fits");
    append(alloc, &mut log, peer(&rt, alloc, (3, 3), &[2, 2, 0])).expect(&rt, "an entry that fits");
    assert_ids(&rt, &log, &[(1, 1), (2, 1), (2, 2), (1, 9), (1, 5), (3, 3)]);
    assert_absent(&rt, &log, &[(2, 9), (1, 4), (1, 10)]);
    assert_eq!(rt; log.table().len(), 5);
    assert_eq!(rt; log.table().at(3), ReplicaId::new(9));
    assert_eq!(rt; log.table().at(4), ReplicaId::new(5));
    assert_eq!(rt;
        missing(&rt, alloc, &log, &[2, 2, 0]).as_slice(),
        [3, 4, 5].as_slice()
    );
}

/// The client and the serial of an own entry, `None` for a peer's.
fn client_of(entry: &Entry) -> Option<(usize, u64)> {
    match entry {
        Entry::Own { client, serial, .. } => Some((*client, *serial)),
        Entry::Peer(_) => None,
    }
}

#[test]
fn entries_are_handed_out(rt: HostRuntime) {
    let entries = log(&rt, rt.alloc()).into_entries();
    let want = [Some((0, 1)), Some((0, 2)), None];
    assert_eq!(rt; entries.len(), want.len());
    for (entry, client) in entries.iter().zip(&want) {
        assert_eq!(rt; client_of(entry), *client);
    }
}

/// Three replicas with rising counters, in an order that isn't id order.
const INTERLEAVED: &[Pair] = &[
    (1, 3),
    (2, 3),
    (1, 1),
    (5, 2),
    (3, 1),
    (6, 2),
    (4, 3),
    (9, 1),
    (10, 2),
    (7, 3),
    (12, 1),
    (13, 2),
];

fn interleaved(rt: &impl Abort, alloc: Global) -> Log {
    let mut log = new_log(rt, alloc);
    for pair in INTERLEAVED {
        append(alloc, &mut log, peer(rt, alloc, *pair, &[0, 0, 0])).expect(
            rt,
            "an entry that fits",
        );
    }
    log
}

/// Ids before, between and after those of a replica, and of nonmembers.
const NOWHERE: &[Pair] = &[
    (0, 2),
    (2, 1),
    (7, 2),
    (5, 3),
    (13, 1),
    (14, 2),
    (1, 4),
    (5, 9),
];

#[test]
fn each_replica_has_its_positions(rt: HostRuntime) {
    let log = interleaved(&rt, rt.alloc());
    assert_ids(&rt, &log, INTERLEAVED);
    assert_absent(&rt, &log, NOWHERE)
}

/// The counters of a vector, and the positions of what it lacks.
type Lacking<'a> = ([u64; 3], &'a [usize]);

/// Asserts what a vector lacks.
fn assert_missing(rt: &impl Abort, alloc: Global, log: &Log, row: &Lacking) {
    let (counters, want) = *row;
    let missing = missing(rt, alloc, log, &counters);
    assert_eq!(rt; missing.as_slice(), want, "beyond {counters:?}");
}

/// Asserts what each vector lacks.
fn assert_all_missing(rt: &impl Abort, alloc: Global, log: &Log, rows: &[Lacking]) {
    for row in rows {
        assert_missing(rt, alloc, log, row);
    }
}

#[test]
fn what_a_vector_lacks(rt: HostRuntime) {
    const ROWS: &[Lacking] = &[
        ([0, 0, 0], &[0, 1, 2]),
        ([2, 2, 0], &[]),
        ([1, 0, 0], &[1, 2]),
        ([0, 9, 9], &[0, 1]),
        ([2, 1, 0], &[2]),
        ([u64::MAX, 1, 0], &[2]),
    ];
    let log = log(&rt, rt.alloc());
    assert_all_missing(&rt, rt.alloc(), &log, ROWS)
}

#[test]
fn a_vector_lacks_nothing_of_nothing(rt: HostRuntime) {
    let log = new_log(&rt, rt.alloc());
    assert_eq!(rt; log.len(), 0);
    assert_missing(&rt, rt.alloc(), &log, &([0, 0, 0], &[]))
}

#[test]
fn what_a_vector_lacks_of_each(rt: HostRuntime) {
    const ROWS: &[Lacking] = &[
        ([0, 0, 0], &[0, 1, 2, 3, 4, 5, 6, 7, 8, 9, 10, 11]),
        ([3, 6, 4], &[7, 8, 9, 10, 11]),
        ([12, 0, 2], &[3, 5, 6, 8, 9, 11]),
        ([8, 5, 7], &[5, 7, 8, 10, 11]),
        ([12, 13, 7], &[]),
    ];
    let log = interleaved(&rt, rt.alloc());
    assert_all_missing(&rt, rt.alloc(), &log, ROWS)
}

/// A log of this many operations of replica 2.
fn log_of(rt: &impl Abort, alloc: Global, count: u64) -> Log {
    let mut log = new_log(rt, alloc);
    for known in 0..count {
        append(
            alloc,
            &mut log,
            peer(rt, alloc, (known + 1, 2), &[0, known, 0]),
        )
        .expect(rt, "an entry that fits");
    }
    log
}

/// The positions from this one to the last.
fn positions_from(rt: &impl Abort, alloc: Global, first: usize, count: usize) -> Vec<usize> {
    let mut positions = Vec::new(alloc);
    for position in first..count {
        positions.push(position).expect(rt, "memory");
    }
    positions
}

/// Asserts what a vector lacks that knows this many of 130.
fn assert_rest(rt: &impl Abort, alloc: Global, log: &Log, known: u64) {
    let want = positions_from(rt, alloc, known as usize, 130);
    assert_missing(rt, alloc, log, &([0, known, 0], want.as_slice()))
}

#[test]
fn what_a_vector_lacks_of_many(rt: HostRuntime) {
    let log = log_of(&rt, rt.alloc(), 130);
    for known in [0, 1, 63, 64, 65, 127, 128, 129, 130] {
        assert_rest(&rt, rt.alloc(), &log, known);
    }
}
