//! The order and the limits of tables, of their members and of those that join.

use ids::{Refusal, ReplicaId, ReplicaTable};
use std::alloc::Global;
use std::process::Abort;

const RISING: [(usize, u32); 4] = [(0, 1), (1, 5), (2, 7), (3, 4_294_967_295)];

fn index_of(table: &ReplicaTable, number: u32) -> Option<usize> {
    let replica = ReplicaId::new(number)?;
    table.index_of(replica)
}

/// Asserts that the table holds the numbers of `RISING` and no others.
fn assert_rising(rt: &impl Abort, table: &ReplicaTable) {
    assert_eq!(rt; table.len(), 4);
    for (index, number) in RISING {
        assert_eq!(rt; table.at(index), ReplicaId::new(number));
        assert_eq!(rt; index_of(table, number), Some(index));
    }
    assert_eq!(rt; table.at(4), None);
}

#[test]
fn members_stand_in_order(rt: HostRuntime) {
    let table = ReplicaTable::new(rt.alloc(), &[7, 4_294_967_295, 1, 5]).expect(&rt, "a table");
    assert_rising(&rt, &table);
    let copy = table.clone().expect(&rt, "memory");
    assert_rising(&rt, &copy);
}

#[test]
fn others_stand_nowhere(rt: HostRuntime) {
    let table = ReplicaTable::new(rt.alloc(), &[7, 4_294_967_295, 1, 5]).expect(&rt, "a table");
    for number in [2, 6, 4_294_967_294] {
        assert_eq!(rt; index_of(&table, number), None, "at {number}");
    }
}

/// The length of the table of these members.
fn made(alloc: Global, members: &[u32]) -> Result<usize, Refusal> {
    let table = ReplicaTable::new(alloc, members)?;
    Ok(table.len())
}

#[test]
fn tables_are_within_limits(rt: HostRuntime) {
    let mut members = Vec::new(rt.alloc());
    for length in 0..=65 {
        let want = if length == 0 || length == 65 {
            Err(Refusal::BadConfig)
        } else {
            Ok(length)
        };
        assert_eq!(rt; made(rt.alloc(), &members), want, "of {length} members");
        members.push(100 - length as u32).expect(&rt, "memory");
    }
}

#[test]
fn members_are_different_and_above_zero(rt: HostRuntime) {
    for members in [[0, 1], [3, 3]] {
        assert_eq!(rt; made(rt.alloc(), &members), Err(Refusal::BadConfig));
    }
}

/// Takes in a replica if there is room, unless it is in the table. Returns its index.
fn join(table: &mut ReplicaTable, number: u32) -> Result<usize, Refusal> {
    let replica = ReplicaId::new(number).ok_or(Refusal::UnknownReplica)?;
    if table.lacks_room_for(replica) {
        return Err(Refusal::UnknownReplica);
    }
    table.reserve_one()?;
    Ok(table.index_or_join(replica))
}

/// A number that is to join, and the index that it then has.
type Joins = (u32, usize);

/// Asserts the indices that these numbers have, one after another.
fn assert_joins(rt: &impl Abort, table: &mut ReplicaTable, joins: &[Joins]) {
    for (number, index) in joins {
        assert_eq!(rt;
            join(table, *number).expect(rt, "a thread"),
            *index,
            "of {number}"
        );
    }
}

/// Asserts that the table has these numbers in this order, and no others.
fn assert_numbers(rt: &impl Abort, table: &ReplicaTable, numbers: &[u32]) {
    assert_eq!(rt; table.len(), numbers.len());
    for (index, number) in numbers.iter().enumerate() {
        assert_eq!(rt; table.at(index), ReplicaId::new(*number));
        assert_eq!(rt; index_of(table, *number), Some(index));
    }
    assert_eq!(rt; table.at(numbers.len()), None);
}

#[test]
fn others_join_behind_the_members(rt: HostRuntime) {
    const JOINS: &[Joins] = &[(6, 2), (2, 3), (9, 1), (6, 2), (5, 0), (1, 4), (2, 3)];
    const NUMBERS: &[u32] = &[5, 9, 6, 2, 1];
    let mut table = ReplicaTable::new(rt.alloc(), &[9, 5]).expect(&rt, "a table");
    assert_joins(&rt, &mut table, JOINS);
    assert_numbers(&rt, &table, NUMBERS);
    let copy = table.clone().expect(&rt, "memory");
    assert_numbers(&rt, &copy, NUMBERS);
}

/// The numbers 101 to 164.
fn sixty_four(rt: &impl Abort, alloc: Global) -> ReplicaTable {
    let mut members = Vec::new(alloc);
    for number in 101..=164 {
        members.push(number).expect(rt, "memory");
    }
    ReplicaTable::new(alloc, &members).expect(rt, "a table")
}

/// Lets 1001 to 1192 join behind 64 members.
fn fill(rt: &impl Abort, table: &mut ReplicaTable) {
    for number in 1001..=1192 {
        let index = number as usize - 937;
        assert_joins(rt, table, &[(number, index)]);
    }
}

/// Asserts that the table has room for the first numbers, and none for the second.
fn assert_room(rt: &impl Abort, table: &ReplicaTable, has: &[u32], lacks: &[u32]) {
    for (numbers, want) in [(has, Some(false)), (lacks, Some(true))] {
        for number in numbers {
            let lack = ReplicaId::new(*number).map(|replica| table.lacks_room_for(replica));
            assert_eq!(rt; lack, want, "for {number}");
        }
    }
}

#[test]
fn at_most_256_are_in_a_table(rt: HostRuntime) {
    let mut table = sixty_four(&rt, rt.alloc());
    assert_room(&rt, &table, &[1, 101, 1192], &[]);
    fill(&rt, &mut table);
    assert_eq!(rt; table.len(), 256);
    assert_room(&rt, &table, &[101, 164, 1001, 1192], &[1, 100, 165, 1193]);
    let copy = table.clone().expect(&rt, "memory");
    assert_room(&rt, &copy, &[101, 164, 1001, 1192], &[1, 100, 165, 1193]);
}
