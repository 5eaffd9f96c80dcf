//! Inserting a new item into a list, and writing it.

ghost use Rattle.std.specs.Prelude.{◌≡◌, ◌<◌, ◌≤◌, ℕ, List, Option, Some, None, IsTrue, IsFalse, IsSome, length, map, option_map};
ghost use Rattle.std.specs.Prelude.{slice_get};
ghost use Rattle.semantics.specs.Elements.{Element, Item, EmptyMap, is_under};
ghost use Rattle.semantics.specs.Operations.{Insert, slot_of};
ghost use Rattle.operation.specs.value.Values.{scalar_of};
ghost use Rattle.operation.specs.cursor.Steps.{hop_of, tag_of};
ghost use Rattle.semantics.specs.Context.{has_item, has_position};
ghost use Rattle.tree.specs.Nested.{IsNested};
ghost use Rattle.tree.specs.Nodes.{AreIndexedNodes, IsTree, MoreRoom, SameLinks, context, node_at, number, order_of, order_room};
ghost use Rattle.tree.specs.Shown.{AreEmpty, AreShown, ShownBut};
ghost use Rattle.tree.specs.Writes.{IsStamp, assigned, deps_of, end_of, linked};
ghost use Rattle.tree.specs.Trees.{CanInsert, SlotIs};

use crate::clear::clear_of;
use crate::node::{Node, NodeNumber, node_at_mut};
use crate::stamp::Stamp;
use crate::walk::{item_of, walk};
use crate::write::{settle, write_path};
use ids::OpId;
use operation::{Hop, Place, Scalar, Tag, VersionVector};

/// The path of a list, and the item that something is inserted after, `None` for the head.
#[derive(Clone, Copy, Debug)]
pub struct Slot<'a> {
    pub list: &'a [Hop],
    pub prev: Option<OpId>,
}

/// The slot of an insert at this place, if it is a head or an item.
pub fn slot_of(place: &Place) -> Option<Slot<'_>>
    ensures { SlotIs result (slot_of (Insert EmptyMap) place.now) }
{
    let path = place.hops();
    if place.is_head() {
        return Some(Slot {
            list: path,
            prev: None,
        });
    }
    match path.split_last() {
        Some((Hop::Item(prev), list)) => Some(Slot {
            list,
            prev: Some(*prev),
        }),
        _ => None,
    }
}

/// Puts an id into the order of a node's list.
fn link_order(nodes: &mut [Node], at: NodeNumber, prev: Option<OpId>, id: &OpId)
    requires tree { IsTree nodes.old }
    requires inside { at < length nodes.old }
    requires position { IsTrue (has_position prev (order_of (slice_get nodes.old at))) }
    requires fresh { IsFalse (has_item id.now (order_of (slice_get nodes.old at))) }
    requires room { 0 < order_room (slice_get nodes.old at) }
    ensures links { SameLinks nodes.old nodes.new }
    ensures room { MoreRoom nodes.old nodes.new }
    ensures indexed { (table : List ℕ) → AreIndexedNodes table nodes.old → AreIndexedNodes table nodes.new }
    ensures linked { (e : Element) → number nodes.old e ≡ Some at → context nodes.new ≡ linked (context nodes.old) e prev id.now }
{
    let node = node_at_mut(nodes, at);
    node.order.insert_after(prev, *id);
}

/// Puts an id into the order of the list at the end of a path, and returns the number of its node.
fn link_list(nodes: &mut [Node], slot: &Slot<'_>, id: &OpId) -> NodeNumber
    requires tree { IsTree nodes.old }
    requires there { IsSome (number nodes.old (Item (end_of (map hop_of slot.now.list.now)) id.now)) }
    requires position { IsTrue (has_position slot.now.prev ((context nodes.old).order (end_of (map hop_of slot.now.list.now)))) }
    requires fresh { IsFalse (has_item id.now ((context nodes.old).order (end_of (map hop_of slot.now.list.now)))) }
    requires room { 0 < order_room (node_at nodes.old (end_of (map hop_of slot.now.list.now))) }
    ensures links { SameLinks nodes.old nodes.new }
    ensures room { MoreRoom nodes.old nodes.new }
    ensures indexed { (table : List ℕ) → AreIndexedNodes table nodes.old → AreIndexedNodes table nodes.new }
    ensures item { number nodes.old (Item (end_of (map hop_of slot.now.list.now)) id.now) ≡ Some result }
    ensures linked { context nodes.new ≡ linked (context nodes.old) (end_of (map hop_of slot.now.list.now)) slot.now.prev id.now }
{
    let at = walk(nodes, slot.list).unwrap();
    let item = item_of(nodes, at, id).unwrap();
    link_order(nodes, at, slot.prev, id);
    item
}

/// Inserts a new item into a list, and writes it. Afterwards what lists show, their bounds of empty items, and the flags of fields may be
/// wrong on the way to it, and nowhere else.
pub fn insert(
    nodes: &mut [Node],
    slot: &Slot<'_>,
    stamp: &Stamp,
    column: &mut VersionVector,
    tag: Tag,
    scalar: Option<Scalar>,
)
    requires tree { IsTree nodes.old }
    requires stamp { IsStamp stamp.now }
    requires width { length stamp.now.table.now.numbers ≤ length column.old }
    requires indexed { AreIndexedNodes stamp.now.table.now.numbers nodes.old }
    requires nested { IsNested (context nodes.old) }
    requires empty { AreEmpty nodes.old }
    requires fits { CanInsert nodes.old (end_of (map hop_of slot.now.list.now)) slot.now.prev stamp.now.id scalar }
    ensures width { length column.new ≡ length column.old }
    ensures tree { IsTree nodes.new }
    ensures indexed { AreIndexedNodes stamp.now.table.now.numbers nodes.new }
    ensures shown { AreShown nodes.old
        → ShownBut nodes.new (is_under (Item (end_of (map hop_of slot.now.list.now)) stamp.now.id)) }
    ensures inserted { context nodes.new
        ≡ assigned (linked (context nodes.old) (end_of (map hop_of slot.now.list.now)) slot.now.prev stamp.now.id) stamp.now.id
        (deps_of stamp.now) (Item (end_of (map hop_of slot.now.list.now)) stamp.now.id) (tag_of tag) (option_map scalar_of scalar) }
{
    let item = link_list(nodes, slot, &stamp.id);
    clear_of(nodes, item, stamp, column);
    write_path(nodes, slot.list, stamp, Tag::List);
    settle(nodes, item, stamp, tag, scalar);
}
