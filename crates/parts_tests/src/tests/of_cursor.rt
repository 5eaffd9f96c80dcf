//! The tests of `cursor`: places, and expressions that lead to them.

use cursor::{Expr, Hop, Last, Place, Step, Tag};
use fixtures::{field, id_of, pair_of};
use ids::Refusal;
use std::alloc::Global;
use std::process::Abort;
use value::{Key, Scalar, Val};

/// This many fields of one key, one below the other.
fn fields(rt: &impl Abort, alloc: Global, count: usize) -> Place {
    let mut place = Place::doc(alloc);
    for _ in 0..count {
        place = place
            .get(alloc, Key::new(alloc, "k").expect(rt, "a key"))
            .expect(rt, "a place");
    }
    place
}

/// The depth of a place.
fn depth_of(place: Result<Place, Refusal>) -> Result<usize, Refusal> {
    let place = place?;
    Ok(place.depth())
}

/// The depths of the field, the head and the item of a place.
fn depths_below(rt: &impl Abort, alloc: Global, place: &Place) -> [Result<usize, Refusal>; 3] {
    let key = Key::new(alloc, "").expect(rt, "a key");
    let item = id_of((7, 2)).expect(rt, "an id");
    let field = depth_of(place.get(alloc, key));
    let head = depth_of(place.head(alloc));
    [field, head, depth_of(place.item(alloc, item))]
}

/// Asserts the depth of the place, and of each one below it.
fn assert_depths(
    rt: &impl Abort,
    alloc: Global,
    place: &Place,
    depth: usize,
    want: Result<usize, Refusal>,
) {
    assert_eq!(rt; place.depth(), depth);
    for deeper in depths_below(rt, alloc, place) {
        assert_eq!(rt; deeper, want, "below {depth}");
    }
}

#[test]
fn paths_have_at_most_32_keys(rt: HostRuntime) {
    for (depth, want) in [
        (0, Ok(1)),
        (1, Ok(2)),
        (31, Ok(32)),
        (32, Err(Refusal::TooDeep)),
    ] {
        let place = fields(&rt, rt.alloc(), depth);
        assert_depths(&rt, rt.alloc(), &place, depth, want);
    }
}

/// The head below this many fields.
fn head_below(rt: &impl Abort, alloc: Global, count: usize) -> Place {
    let place = fields(rt, alloc, count);
    place.head(alloc).expect(rt, "a place")
}

#[test]
fn nothing_stands_below_a_head(rt: HostRuntime) {
    for (count, depth) in [(0, 1), (1, 2), (31, 32)] {
        let head = head_below(&rt, rt.alloc(), count);
        assert_depths(&rt, rt.alloc(), &head, depth, Err(Refusal::AtHead));
    }
}

/// This many hops to a field.
fn hops(alloc: Global, count: usize) -> Result<Vec<Hop>, Refusal> {
    let mut hops = Vec::new(alloc);
    for _ in 0..count {
        let key = Key::new(alloc, "k")?;
        hops.push(Hop::Field(key))?;
    }
    Ok(hops)
}

/// The depth of the place of this many hops.
fn depth_made(alloc: Global, count: usize, is_head: bool) -> Result<usize, Refusal> {
    let hops = hops(alloc, count)?;
    depth_of(Place::new(hops, is_head))
}

#[test]
fn places_are_made_of_hops(rt: HostRuntime) {
    for (count, is_head, want) in [
        (0, false, Ok(0)),
        (0, true, Ok(1)),
        (31, true, Ok(32)),
        (32, false, Ok(32)),
        (32, true, Err(Refusal::TooDeep)),
        (33, false, Err(Refusal::TooDeep)),
    ] {
        let depth = depth_made(rt.alloc(), count, is_head);
        assert_eq!(rt; depth, want, "{count} hops");
    }
}

/// A place.
#[derive(Clone, Copy)]
enum At {
    Doc,
    Head,
    /// The field of this key.
    Field(&'static str),
    /// The item of this counter and replica.
    Item(u64, u32),
    /// This many fields of one key, one below the other.
    Fields(usize),
}

/// The item of this counter and replica.
fn item(rt: &impl Abort, alloc: Global, counter: u64, replica: u32) -> Place {
    let id = id_of((counter, replica)).expect(rt, "an id");
    Place::doc(alloc).item(alloc, id).expect(rt, "a place")
}

/// The place of a row.
fn place_at(rt: &impl Abort, alloc: Global, at: At) -> Place {
    match at {
        At::Doc => Place::doc(alloc),
        At::Head => head_below(rt, alloc, 0),
        At::Field(key) => field(alloc, key).expect(rt, "a place"),
        At::Item(counter, replica) => item(rt, alloc, counter, replica),
        At::Fields(count) => fields(rt, alloc, count),
    }
}

/// Whether two places are equal, with the first one copied.
fn are_equal(rt: &impl Abort, alloc: Global, at: At, other: At) -> bool {
    let place = place_at(rt, alloc, at);
    let other = place_at(rt, alloc, other);
    place.clone().expect(rt, "memory") == other
}

#[test]
fn places_are_told_apart(rt: HostRuntime) {
    const PLACES: &[At] = &[
        At::Doc,
        At::Head,
        At::Field("a"),
        At::Field("b"),
        At::Item(7, 2),
        At::Item(7, 3),
        At::Item(8, 2),
        At::Fields(2),
    ];
    for (i, at) in PLACES.iter().enumerate() {
        for (j, other) in PLACES.iter().enumerate() {
            assert_eq!(rt;
                are_equal(&rt, rt.alloc(), *at, *other),
                i == j,
                "{i} and {j}"
            );
        }
    }
}

#[test]
fn the_document_ends_in_no_key(rt: HostRuntime) {
    let doc = Place::doc(rt.alloc());
    assert_eq!(rt; doc.last(), Last::Doc);
    assert_eq!(rt; doc.is_head(), false);
}

#[test]
fn fields_end_in_keys(rt: HostRuntime) {
    let field = field(rt.alloc(), "k").expect(&rt, "a place");
    let Last::Key(key) = field.last() else {
        panic!(rt; "another end");
    };
    assert_eq!(rt; key.as_str(), "k");
    assert_eq!(rt; field.is_head(), false);
}

/// The item 7@2 of the list at the key `k`.
fn item_of_list(rt: &impl Abort, alloc: Global) -> Place {
    let list = field(alloc, "k").expect(rt, "a place");
    let id = id_of((7, 2)).expect(rt, "an id");
    list.item(alloc, id).expect(rt, "a place")
}

#[test]
fn items_end_in_ids(rt: HostRuntime) {
    let id = id_of((7, 2)).expect(&rt, "an id");
    let item = item_of_list(&rt, rt.alloc());
    assert_eq!(rt; item.last(), Last::Elem(id));
    assert_eq!(rt; item.is_head(), false);
}

/// Asserts that the place leads over the key `k` to the item 7@2.
fn assert_hops(rt: &impl Abort, place: &Place) {
    let [Hop::Field(first), Hop::Item(second)] = place.hops() else {
        panic!(rt; "other hops");
    };
    assert_eq!(rt; first.as_str(), "k");
    assert_eq!(rt; *second, id_of((7, 2)).expect(rt, "an id"));
}

/// The head of the list at that item.
fn head_of_item(rt: &impl Abort, alloc: Global) -> Place {
    let item = item_of_list(rt, alloc);
    item.head(alloc).expect(rt, "a place")
}

#[test]
fn heads_end_as_heads(rt: HostRuntime) {
    let head = head_of_item(&rt, rt.alloc());
    assert_eq!(rt; head.last(), Last::Head);
    assert_eq!(rt; head.is_head(), true);
    assert_hops(&rt, &head)
}

#[test]
fn values_have_tags(rt: HostRuntime) {
    assert_eq!(rt; Tag::of(&Val::EmptyMap), Tag::Map);
    assert_eq!(rt; Tag::of(&Val::EmptyList), Tag::List);
    assert_eq!(rt; Tag::of(&Val::Scalar(Scalar::Null)), Tag::Reg);
    assert_eq!(rt; Tag::of(&Val::Scalar(Scalar::Whole(0))), Tag::Reg);
}

/// The key `tête`, the last number, and an id.
fn steps(rt: &impl Abort, alloc: Global) -> Vec<Step> {
    let key = Key::new(alloc, "tête").expect(rt, "a key");
    let mut steps = Vec::new(alloc);
    steps.push(Step::Get(key)).expect(rt, "memory");
    steps.push(Step::Idx(u64::MAX)).expect(rt, "memory");
    steps
        .push(Step::Item(id_of((3, 2)).expect(rt, "an id")))
        .expect(rt, "memory");
    steps
}

/// Asserts that the expression has just those steps.
fn assert_steps(rt: &impl Abort, expression: &Expr) {
    let [Step::Get(key), Step::Idx(index), Step::Item(id)] = expression.steps() else {
        panic!(rt; "other steps");
    };
    assert_eq!(rt; key.as_str(), "tête");
    assert_eq!(rt; *index, u64::MAX);
    assert_eq!(rt; pair_of(*id), (3, 2));
}

#[test]
fn expressions_keep_their_steps(rt: HostRuntime) {
    let expression = Expr::new(steps(&rt, rt.alloc()));
    assert_steps(&rt, &expression);
    let copy = expression.clone().expect(&rt, "memory");
    assert_steps(&rt, &copy)
}

#[test]
fn expressions_are_made_step_by_step(rt: HostRuntime) {
    let alloc = rt.alloc();
    assert_eq!(rt; Expr::root(alloc).steps().len(), 0);
    let expression = Expr::root(alloc)
        .get(alloc, "tête")
        .expect(&rt, "a place")
        .idx(u64::MAX)
        .expect(&rt, "an expression");
    let expression = expression
        .item(id_of((3, 2)).expect(&rt, "an id"))
        .expect(&rt, "a place");
    assert_steps(&rt, &expression)
}
