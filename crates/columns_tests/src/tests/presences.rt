//! Presences: the ids that keep an element visible, and which kinds of value are present.

ghost use Rattle.std.specs.Prelude.{◌<◌, IfOk};
ghost use Rattle.std.specs.List.{All};

use super::*;
use cursor::Tag;
use fixtures::vector;
use std::alloc::Global;
use std::process::Abort;

/// An id, and its tag.
type Row = (Pair, Tag);

/// Ids in mixed order. Two of them get another tag.
const MIXED: [Row; 7] = [
    ((1, 1), Tag::Map),
    ((3, 1), Tag::Reg),
    ((2, 2), Tag::List),
    ((2, 2), Tag::Map),
    ((4, 2), Tag::List),
    ((3, 1), Tag::Map),
    ((5, 1), Tag::Reg),
];

/// Puts an id, for a table of two replicas, numbered from 1.
fn put(presence: &mut Presence, pair: Pair, tag: Tag) -> Result<(), Fail>
    requires { All (λ index. index < 2) presence.old.indices }
    ensures { All (λ index. index < 2) presence.new.indices }
{
    let id = id_of(pair)?;
    presence.reserve_one()?;
    let index = if pair.1 == 1 { 0 } else { 1 };
    presence.put(id, index, tag);
    Ok(())
}

/// A presence of tags, put in this order.
fn presence(alloc: Global, rows: &[Row]) -> Result<Presence, Fail>
    ensures { IfOk result (λ presence. All (λ index. index < 2) presence.indices) }
{
    let mut presence = Presence::new(alloc);
    for (pair, tag) in rows {
        put(&mut presence, *pair, *tag)?;
    }
    Ok(presence)
}

/// What is left of such a presence after it is cleared by the vector of these counters.
fn left(alloc: Global, rows: &[Row], counters: [u64; 2]) -> Result<Presence, Fail> {
    let vector = vector(alloc, &counters)?;
    let mut presence = presence(alloc, rows)?;
    presence.clear(&vector);
    Ok(presence)
}

/// Which kinds of value are present at these ids, by a look at each.
fn standing(tags: &[(OpId, Tag)]) -> (bool, bool, bool) {
    let (mut register, mut map, mut list) = (false, false, false);
    for (_, tag) in tags {
        match tag {
            Tag::Reg => register = true,
            Tag::Map => map = true,
            Tag::List => list = true,
        }
    }
    (register, map, list)
}

/// Asserts the tags of a presence, in order, and which kinds of value are present.
fn assert_tags(
    rt: &impl Abort,
    alloc: Global,
    presence: &Presence,
    want: &[Tag],
) -> Result<(), Fail> {
    let tags = presence.copy(alloc)?;
    assert_eq!(rt; presence.len(), want.len());
    assert_eq!(rt; tags.len(), want.len());
    for (position, tag) in want.iter().enumerate() {
        assert_eq!(rt; tags[position].1, *tag, "at {position}");
    }
    assert_kinds(rt, alloc, presence)
}

/// Asserts that a presence knows what a look at each id shows.
fn assert_kinds(rt: &impl Abort, alloc: Global, presence: &Presence) -> Result<(), Fail> {
    let kinds = presence.kinds();
    assert_eq!(rt;
        (kinds.register, kinds.map, kinds.list),
        standing(&presence.copy(alloc)?)
    );
    Ok(())
}

/// Puts tags in this order, clears them by the vector of these counters, and asserts what is left.
fn assert_left(
    rt: &impl Abort,
    alloc: Global,
    given: &[Row],
    counters: [u64; 2],
    want: &[Tag],
) -> Result<(), Fail> {
    let presence = left(alloc, given, counters)?;
    assert_tags(rt, alloc, &presence, want)
}

#[test]
fn presences_hold_tags(rt: HostRuntime) -> Result<(), Fail> {
    assert_eq!(rt; Presence::new(rt.alloc()).len(), 0);
    assert_left(
        &rt,
        rt.alloc(),
        &[((2, 1), Tag::List), ((1, 1), Tag::Map), ((3, 1), Tag::Reg)],
        [1, 0],
        &[Tag::List, Tag::Reg],
    )
}

#[test]
fn an_id_has_its_last_tag(rt: HostRuntime) -> Result<(), Fail> {
    const ALL: [Tag; 5] = [Tag::Map, Tag::Map, Tag::Map, Tag::List, Tag::Reg];
    let alloc = rt.alloc();
    assert_left(&rt, alloc, &MIXED, [0, 0], &ALL)?;
    assert_left(&rt, alloc, &MIXED, [5, 0], &[Tag::Map, Tag::List])?;
    assert_left(&rt, alloc, &MIXED, [4, 4], &[Tag::Reg])?;
    assert_left(&rt, alloc, &MIXED, [5, 4], &[])
}

/// Asserts which kinds of value are present with the first of the mixed ids, and then with those that two counters leave.
fn assert_kinds_of(
    rt: &impl Abort,
    alloc: Global,
    count: usize,
    counters: [u64; 2],
) -> Result<(), Fail> {
    let rows = &MIXED[..count.min(MIXED.len())];
    let all = presence(alloc, rows)?;
    assert_kinds(rt, alloc, &all)?;
    let few = left(alloc, rows, counters)?;
    assert_kinds(rt, alloc, &few)
}

#[test]
fn kinds_are_those_of_the_ids(rt: HostRuntime) -> Result<(), Fail> {
    for count in 0..8 {
        for first in 0..6 {
            for second in 0..5 {
                assert_kinds_of(&rt, rt.alloc(), count, [first, second])?;
            }
        }
    }
    Ok(())
}
