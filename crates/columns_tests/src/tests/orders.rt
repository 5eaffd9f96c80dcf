//! The order of a list.

use super::*;
use std::alloc::Global;
use std::process::Abort;

/// An item, and the one after which it is put; `None` means the head.
type Row = (Option<Pair>, Pair);

/// Puts an item.
fn put(rt: &impl Abort, order: &mut ListOrder, row: Row) {
    let (prev, item) = row;
    let new = id_of(item).expect(rt, "an id");
    order.reserve_one().expect(rt, "memory");
    if order.contains(&new) {
        return;
    }
    let Some(prev) = prev else {
        order.insert_after(None, new);
        return;
    };
    let prev = id_of(prev).expect(rt, "an id");
    if order.contains(&prev) {
        order.insert_after(Some(prev), new);
    }
}

/// The items, put in this order.
fn order_of(rt: &impl Abort, alloc: Global, rows: &[Row]) -> ListOrder {
    let mut order = ListOrder::new(alloc);
    for row in rows {
        put(rt, &mut order, *row);
    }
    order
}

/// The items that are shown.
fn visible(rt: &impl Abort, alloc: Global, order: &ListOrder) -> Vec<Pair> {
    let mut items = Vec::new(alloc);
    for id in &order.visible(alloc).expect(rt, "not refused") {
        items.push(pair_of(*id)).expect(rt, "memory");
    }
    items
}

/// Asserts the items, once all of these are shown.
fn assert_items(rt: &impl Abort, alloc: Global, order: &mut ListOrder, want: &[Pair]) {
    for pair in want {
        show(rt, order, *pair, true);
    }
    let items = visible(rt, alloc, order);
    assert_eq!(rt; items.as_slice(), want);
}

/// Asserts that no item has this id.
fn assert_absent(rt: &impl Abort, order: &ListOrder, pair: Pair) {
    let id = id_of(pair).expect(rt, "an id");
    assert!(rt; !order.contains(&id));
}

/// Puts items in this order, and asserts the list.
fn assert_order(rt: &impl Abort, alloc: Global, given: &[Row], want: &[Pair]) {
    let mut order = order_of(rt, alloc, given);
    assert_items(rt, alloc, &mut order, want);
    assert_absent(rt, &order, (9, 9))
}

#[test]
fn items_stand_where_they_are_put(rt: HostRuntime) {
    let alloc = rt.alloc();
    assert_order(&rt, alloc, &[], &[]);
    assert_order(&rt, alloc, &[(None, (1, 1))], &[(1, 1)]);
    let rows = [(None, (1, 1)), (Some((1, 1)), (2, 1))];
    assert_order(&rt, alloc, &rows, &[(1, 1), (2, 1)])
}

#[test]
fn items_go_past_greater_ones(rt: HostRuntime) {
    let alloc = rt.alloc();
    let rows = [(None, (1, 1)), (None, (2, 1))];
    assert_order(&rt, alloc, &rows, &[(2, 1), (1, 1)]);
    let rows = [(None, (1, 2)), (None, (1, 1))];
    assert_order(&rt, alloc, &rows, &[(1, 2), (1, 1)])
}

#[test]
fn items_go_past_all_that_follows_a_greater_one(rt: HostRuntime) {
    assert_order(
        &rt,
        rt.alloc(),
        &[
            (None, (1, 1)),
            (Some((1, 1)), (3, 1)),
            (Some((3, 1)), (4, 1)),
            (Some((1, 1)), (2, 2)),
            (Some((4, 1)), (5, 1)),
        ],
        &[(1, 1), (3, 1), (4, 1), (5, 1), (2, 2)],
    )
}

/// Shows or hides an item, if it is there.
fn show(rt: &impl Abort, order: &mut ListOrder, pair: Pair, shown: bool) {
    let id = id_of(pair).expect(rt, "an id");
    if order.contains(&id) {
        order.set_shown(&id, shown);
    }
}

/// The shown item with this index, counted among the shown ones.
fn nth(order: &ListOrder, index: usize) -> Option<Pair> {
    order.nth_visible(index).map(pair_of)
}

#[test]
fn only_shown_items_are_counted(rt: HostRuntime) {
    let rows = [
        (None, (1, 1)),
        (Some((1, 1)), (2, 1)),
        (Some((2, 1)), (3, 1)),
    ];
    let mut order = order_of(&rt, rt.alloc(), &rows);
    assert_eq!(rt; nth(&order, 0), None);
    show(&rt, &mut order, (3, 1), true);
    show(&rt, &mut order, (1, 1), true);
    assert_eq!(rt;
        (nth(&order, 0), nth(&order, 1), nth(&order, 2)),
        (Some((1, 1)), Some((3, 1)), None)
    );
    show(&rt, &mut order, (1, 1), false);
    assert_eq!(rt; (nth(&order, 0), nth(&order, 1)), (Some((3, 1)), None));
}

/// Asserts that this many items, each put after the one before it or each at the head, are those from `1@1` on, in ascending or descending
/// order.
fn assert_long(rt: &impl Abort, alloc: Global, count: u64, at_head: bool) {
    let mut order = ListOrder::new(alloc);
    let mut want = Vec::new(alloc);
    for number in 0..count {
        let counter = number + 1;
        let prev = if at_head || number == 0 {
            None
        } else {
            Some((number, 1))
        };
        put(rt, &mut order, (prev, (counter, 1)));
        show(rt, &mut order, (counter, 1), true);
        want.push((counter, 1)).expect(rt, "memory");
    }
    if at_head {
        want.reverse();
    }
    assert_items(rt, alloc, &mut order, &want);
    assert_eq!(rt;
        (nth(&order, 700), nth(&order, 2999)),
        (want.get(700).copied(), want.get(2999).copied())
    );
}

#[test]
fn long_lists_stand_in_blocks(rt: HostRuntime) {
    assert_long(&rt, rt.alloc(), 3000, false);
    assert_long(&rt, rt.alloc(), 3000, true)
}

/// Puts `count` items of a replica, each after the one before it or each at the head, and shows them.
fn put_those_of(rt: &impl Abort, order: &mut ListOrder, replica: u32, count: u64, at_head: bool) {
    for number in 0..count {
        let item = (number + 1, replica);
        let prev = if at_head || number == 0 {
            None
        } else {
            Some((number, replica))
        };
        put(rt, order, (prev, item));
        show(rt, order, item, true);
    }
}

/// The items of the replicas 1 and 2 where those of 2 came after those of 1: all of 2 go first, or each goes before that of 1 with its
/// counter, from the greatest down.
fn met(rt: &impl Abort, alloc: Global, count: u64, at_head: bool) -> Vec<Pair> {
    let mut items = Vec::new(alloc);
    for number in 0..count {
        if at_head {
            items.push((count - number, 2)).expect(rt, "memory");
            items.push((count - number, 1)).expect(rt, "memory");
        } else {
            items.push((number + 1, 2)).expect(rt, "memory");
        }
    }
    if !at_head {
        for number in 0..count {
            items.push((number + 1, 1)).expect(rt, "memory");
        }
    }
    items
}

#[test]
fn lists_that_meet_keep_each_item(rt: HostRuntime) {
    let alloc = rt.alloc();
    for count in [40, 512, 513, 700] {
        for at_head in [false, true] {
            let mut order = ListOrder::new(alloc);
            put_those_of(&rt, &mut order, 1, count, at_head);
            put_those_of(&rt, &mut order, 2, count, at_head);
            let want = met(&rt, alloc, count, at_head);
            assert_items(&rt, alloc, &mut order, &want);
        }
    }
}

/// Asserts that this many shown items are the first of all shown items.
fn assert_first(rt: &impl Abort, alloc: Global, order: &ListOrder, count: usize) {
    let all = order.visible(alloc).expect(rt, "not refused");
    let first = order.first_visible(count, alloc).expect(rt, "not refused");
    let end = count.min(all.len());
    assert_eq!(rt; first.as_slice(), &all[..end], "of {count}");
}

/// This many items, each put after the one before it. Every third one isn't shown.
fn with_hidden(rt: &impl Abort, alloc: Global, count: u64) -> ListOrder {
    let mut order = ListOrder::new(alloc);
    put(rt, &mut order, (None, (1, 1)));
    for number in 1..count {
        let counter = number + 1;
        put(rt, &mut order, (Some((number, 1)), (counter, 1)));
        show(rt, &mut order, (counter, 1), number % 3 != 0);
    }
    order
}

#[test]
fn the_first_items_are_those_that_are_shown(rt: HostRuntime) {
    assert_first(&rt, rt.alloc(), &ListOrder::new(rt.alloc()), 3);
    let order = with_hidden(&rt, rt.alloc(), 1500);
    for count in [
        0, 1, 2, 340, 341, 342, 343, 682, 683, 684, 998, 999, 1000, 1001,
    ] {
        assert_first(&rt, rt.alloc(), &order, count);
    }
}
