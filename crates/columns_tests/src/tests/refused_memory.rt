//! What is refused memory stays as it was and answers as ever when it is called again, also where ids come late.
//!
//! Run with each allocation refused in turn (`tests/refused_memory.sh`): what is refused is called once more, so each run
//! passes.

ghost use Rattle.std.specs.Prelude.{◌<◌, OnOk};

use super::*;
use cursor::Tag;
use std::alloc::{AllocError, Global};

/// How many ids each of two replicas has: those of the second come once the first has a column.
const EACH: u64 = 700;

/// The id at a position once all of both replicas are there.
fn pair_at(position: usize) -> Pair {
    let counter = (position / 2) as u64;
    if position % 2 == 0 {
        return (counter.wrapping_add(1), 1);
    }
    (counter.wrapping_add(1), 2)
}

/// Makes room in a presence, at the second try where memory was refused.
fn reserve(presence: &mut Presence) -> Result<(), AllocError>
    ensures { OnOk result (0 < presence.new.room) }
{
    if presence.reserve_one().is_ok() {
        return Ok(());
    }
    presence.reserve_one()
}

/// Puts an id of the replica with this index.
fn put(presence: &mut Presence, pair: Pair, index: usize) -> Result<(), Fail> {
    let id = id_of(pair)?;
    reserve(presence)?;
    presence.put(id, index, Tag::Map);
    Ok(())
}

/// The entries of a presence, at the second try where memory was refused.
fn copy(alloc: Global, presence: &Presence) -> Result<Vec<(OpId, Tag)>, AllocError> {
    match presence.copy(alloc) {
        Ok(tags) => Ok(tags),
        Err(AllocError) => presence.copy(alloc),
    }
}

#[test]
fn presences_keep_late_ids(rt: HostRuntime) -> Result<(), Fail> {
    let mut presence = Presence::new(rt.alloc());
    for counter in 1..=EACH {
        put(&mut presence, (counter, 1), 0)?;
    }
    for counter in 1..=EACH {
        put(&mut presence, (counter, 2), 1)?;
    }
    let tags = copy(rt.alloc(), &presence)?;
    assert_eq!(rt; tags.len(), 1_400);
    for position in 0..tags.len() {
        assert_eq!(rt; pair_of(tags[position].0), pair_at(position));
    }
    Ok(())
}

/// Makes room in an order, at the second try where memory was refused.
fn reserve_item(order: &mut ListOrder) -> Result<(), AllocError>
    ensures { OnOk result (0 < order.new.room) }
{
    if order.reserve_one().is_ok() {
        return Ok(());
    }
    order.reserve_one()
}

/// Puts an item at the head, and shows it.
fn put_first(order: &mut ListOrder, pair: Pair) -> Result<(), Fail> {
    let id = id_of(pair)?;
    reserve_item(order)?;
    if !order.contains(&id) {
        order.insert_after(None, id);
    }
    if order.contains(&id) {
        order.set_shown(&id, true);
    }
    Ok(())
}

/// The items that are shown, at the second try where memory was refused.
fn visible(alloc: Global, order: &ListOrder) -> Result<Vec<OpId>, AllocError> {
    match order.visible(alloc) {
        Ok(items) => Ok(items),
        Err(AllocError) => order.visible(alloc),
    }
}

#[test]
fn lists_keep_late_ids(rt: HostRuntime) -> Result<(), Fail> {
    let mut order = ListOrder::new(rt.alloc());
    for counter in 1..=EACH {
        put_first(&mut order, (counter, 1))?;
    }
    for counter in 1..=EACH {
        put_first(&mut order, (counter, 2))?;
    }
    let items = visible(rt.alloc(), &order)?;
    assert_eq!(rt; items.len(), 1_400);
    for position in 0..items.len() {
        assert_eq!(rt;
            pair_of(items[items.len() - 1 - position]),
            pair_at(position)
        );
    }
    Ok(())
}
