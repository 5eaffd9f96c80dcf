//! Presences of many ids, on both sides of where columns begin, beside a list that is kept in order.

ghost use Rattle.std.specs.Prelude.{◌<◌, IfOk};
ghost use Rattle.std.specs.List.{All};

use super::*;
use cursor::Tag;
use fixtures::vector;
use std::alloc::Global;
use std::process::Abort;

/// An id, and the tag with which it stands.
type Row = (Pair, Tag);

/// In which order ids come.
#[derive(Clone, Copy, Debug)]
enum Order {
    /// Those of one replica, rising.
    Own,
    /// Those of one replica, and then the same counters of another.
    Apart,
    /// Those of three replicas in turn.
    InTurn,
    /// Those of one replica, falling.
    Falling,
    /// Those of one replica, of which each second one comes again with another tag.
    Again,
}

const ORDERS: [Order; 5] = [
    Order::Own,
    Order::Apart,
    Order::InTurn,
    Order::Falling,
    Order::Again,
];

/// The id that comes at this turn.
fn pair_at(order: Order, turn: u64, count: u64) -> Pair {
    let next = turn.wrapping_add(1);
    match order {
        Order::Own => (next, 1),
        Order::Apart => {
            let half = count / 2;
            if turn < half {
                return (next, 1);
            }
            (next.saturating_sub(half), 2)
        }
        Order::InTurn => {
            let replica = match turn % 3 {
                0 => 1,
                1 => 2,
                _ => 3,
            };
            (next, replica)
        }
        Order::Falling => (count.saturating_sub(turn), 1),
        Order::Again => {
            if turn % 3 == 2 {
                return (turn, 1);
            }
            (next, 1)
        }
    }
}

/// The tag of a turn: a map, and now and then a list.
fn tag_at(turn: u64) -> Tag {
    if turn % 40 == 2 {
        return Tag::List;
    }
    Tag::Map
}

/// Puts an id, for a table of three replicas, numbered from 1.
fn put(presence: &mut Presence, row: Row) -> Result<(), Fail>
    ensures { All (λ index. index < 3) presence.old.indices → All (λ index. index < 3) presence.new.indices }
{
    let (pair, tag) = row;
    let id = id_of(pair)?;
    presence.reserve_one()?;
    let index = match pair.1 {
        1 => 0,
        2 => 1,
        _ => 2,
    };
    presence.put(id, index, tag);
    Ok(())
}

/// A presence of the ids of an order.
fn presence_of(alloc: Global, order: Order, count: u64) -> Result<Presence, Fail>
    ensures { IfOk result (λ presence. All (λ index. index < 3) presence.indices) }
{
    let mut presence = Presence::new(alloc);
    for turn in 0..count {
        put(&mut presence, (pair_at(order, turn, count), tag_at(turn)))?;
    }
    Ok(presence)
}

/// Puts a row where its counter and its replica belong, in place of one with the same.
fn put_row(rt: &impl Abort, rows: &mut Vec<Row>, row: Row) {
    match rows.binary_search_by_key(&row.0, |other| other.0) {
        Ok(at) => {
            rows.remove(at);
            rows.insert(at, row).expect(rt, "memory");
        }
        Err(at) => rows.insert(at, row).expect(rt, "memory"),
    }
}

/// The same ids in a list that is kept in order.
fn rows_of(rt: &impl Abort, alloc: Global, order: Order, count: u64) -> Vec<Row> {
    let mut rows = Vec::new(alloc);
    for turn in 0..count {
        put_row(rt, &mut rows, (pair_at(order, turn, count), tag_at(turn)));
    }
    rows
}

/// Whether a vector of these counters leaves an id of one of the replicas 1 to 3.
fn stays(pair: Pair, counters: [u64; 3]) -> bool {
    let [first, second, third] = counters;
    let covered = match pair.1 {
        1 => first,
        2 => second,
        _ => third,
    };
    pair.0 > covered
}

/// Asserts that the ids of a presence are these of the rows that a vector of these counters leaves.
fn assert_rows(
    rt: &impl Abort,
    alloc: Global,
    presence: &Presence,
    rows: &[Row],
    counters: [u64; 3],
) -> Result<(), Fail> {
    let tags = presence.copy(alloc)?;
    let mut count: usize = 0;
    for (pair, tag) in rows {
        if stays(*pair, counters) {
            assert!(rt; count < tags.len(), "{pair:?} is missing");
            let (id, stands) = tags[count];
            assert_eq!(rt; (pair_of(id), stands), (*pair, *tag), "at {count}");
            count = count.saturating_add(1);
        }
    }
    assert_eq!(rt; tags.len(), count);
    assert_eq!(rt; presence.len(), count);
    Ok(())
}

/// The ids that come after a clear, of the replicas 1 and 2 in turn.
fn later_row(turn: u64, count: u64) -> Row {
    let counter = count.saturating_add(turn).saturating_add(1);
    if turn % 2 == 0 {
        return ((counter, 1), Tag::Map);
    }
    ((counter, 2), Tag::Map)
}

/// Asserts that a presence of an order is a sorted list once a vector of these counters has cleared it, and when more ids have come.
fn assert_left(
    rt: &impl Abort,
    alloc: Global,
    order: Order,
    count: u64,
    counters: [u64; 3],
) -> Result<(), Fail> {
    let vector = vector(alloc, &counters)?;
    let mut rows = rows_of(rt, alloc, order, count);
    let mut presence = presence_of(alloc, order, count)?;
    presence.clear(&vector);
    assert_rows(rt, alloc, &presence, &rows, counters)?;
    for turn in 0..70 {
        put(&mut presence, later_row(turn, count))?;
        put_row(rt, &mut rows, later_row(turn, count));
    }
    assert_rows(rt, alloc, &presence, &rows, counters)
}

/// The counts on both sides of where columns begin, and of where a column grows.
const COUNTS: [u64; 7] = [511, 512, 513, 514, 545, 578, 1_100];

#[test]
fn presences_of_many_ids_are_sorted_lists(rt: HostRuntime) -> Result<(), Fail> {
    for order in ORDERS {
        for count in COUNTS {
            assert_left(&rt, rt.alloc(), order, count, [0, 0, 0])?;
        }
    }
    Ok(())
}

/// The counts on both sides of where ids that replicas write in turn go into columns.
const COUNTS_IN_TURN: [u64; 4] = [8_191, 8_192, 8_193, 8_300];

#[test]
fn presences_of_ids_in_turn_are_sorted_lists(rt: HostRuntime) -> Result<(), Fail> {
    for count in COUNTS_IN_TURN {
        assert_left(
            &rt,
            rt.alloc(),
            Order::InTurn,
            count,
            [count / 3, count / 4, 1],
        )?;
    }
    Ok(())
}

#[test]
fn clears_leave_what_a_vector_does_not_cover(rt: HostRuntime) -> Result<(), Fail> {
    for order in ORDERS {
        for count in COUNTS {
            assert_left(&rt, rt.alloc(), order, count, [count / 3, count / 4, 1])?;
            assert_left(&rt, rt.alloc(), order, count, [count, 0, count])?;
            assert_left(&rt, rt.alloc(), order, count, [count, count, count])?;
        }
    }
    Ok(())
}
