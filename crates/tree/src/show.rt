//! Keeping up to date what lists show, their bounds of empty items, and the flags of fields.

ghost use Rattle.std.specs.Prelude.{◌≡◌, ◌<◌, ◌||◌, ℕ, Bool, false, Some, length, map, min, cond, slice_index_or, IfSome};
ghost use Rattle.std.specs.List.{filter};
ghost use Rattle.semantics.specs.Ids.{OpId as TheId, is_same_id};
ghost use Rattle.semantics.specs.Elements.{Element, Field, Item, EmptyMap, Name, is_same, is_under};
ghost use Rattle.semantics.specs.Operations.{Insert, slot_of, target_in};
ghost use Rattle.semantics.specs.Paths.{FieldHop, ItemHop, child};
ghost use Rattle.operation.specs.cursor.Steps.{hop_of};
ghost use Rattle.operation.specs.Ops.{mutation_of};
ghost use Rattle.tree.specs.Nodes.{IsTree, MoreRoom, child_number, links, number};
ghost use Rattle.tree.specs.Shown.{AreEmpty, AreShown, SameButFlags, ShownBut};
ghost use Rattle.tree.specs.Writes.{end_of};

use crate::answer::is_present;
use crate::insert::{Slot, slot_of};
use crate::node::{Node, NodeNumber, node_at, node_at_mut};
use crate::walk::item_of;
use ids::OpId;
use operation::{Hop, Key, Mutation, Op, Place};

/// The bound below which all items of a list are empty, lowered to this id's counter if the item is present.
pub fn empty_below_with(empty_below: u64, id: &OpId, stands: bool) -> u64
    ensures { result ≡ cond stands (min empty_below id.now.counter) empty_below }
{
    if stands {
        empty_below.min(id.counter)
    } else {
        empty_below
    }
}

/// Shows an item of a node's list if it is present, and hides it if it isn't. An item that is shown, however old, lowers the bound of empty
/// items. A binary search and a walk in one block of the list.
fn show_item(nodes: &mut [Node], at: NodeNumber, id: &OpId, item: NodeNumber)
    requires tree { IsTree nodes.old }
    requires inside { at < length nodes.old }
    requires item { child_number nodes.old at (ItemHop id.now) ≡ Some item }
    ensures same { SameButFlags nodes.old nodes.new }
    ensures room { MoreRoom nodes.old nodes.new }
    ensures shown { (e : Element) (off : Element → Bool) → number nodes.old e ≡ Some at
        → ShownBut nodes.old (λ x. is_same x (Item e id.now) || off x) → ShownBut nodes.new off }
    ensures empty { (e : Element) → number nodes.old e ≡ Some at → AreEmpty nodes.old → AreEmpty nodes.new }
{
    let shown = is_present(nodes, item);
    let node = node_at_mut(nodes, at);
    node.order.set_shown(id, shown);
    node.empty_below = empty_below_with(node.empty_below, id, shown);
}

/// The same for the item with this index among those that have a node.
pub fn show_child(nodes: &mut [Node], at: NodeNumber, position: usize)
    requires tree { IsTree nodes.old }
    requires inside { at < length nodes.old }
    requires within { position < length (links nodes.old at).1 }
    ensures same { SameButFlags nodes.old nodes.new }
    ensures room { MoreRoom nodes.old nodes.new }
    ensures shown { (e : Element) (off : Element → Bool) (d : TheId × ℕ) → number nodes.old e ≡ Some at
        → ShownBut nodes.old (λ x. is_same x (Item e (slice_index_or (links nodes.old at).1 position d).0) || off x)
        → ShownBut nodes.new off }
    ensures empty { (e : Element) → number nodes.old e ≡ Some at → AreEmpty nodes.old → AreEmpty nodes.new }
{
    let (id, item) = node_at(nodes, at).items.at(position);
    let item = NodeNumber::new(item);
    show_item(nodes, at, &id, item);
}

/// Raises the flag of the field with this index if the field is present, and lowers it if it isn't, in constant time.
pub fn flag_field(nodes: &mut [Node], at: NodeNumber, position: usize, field: NodeNumber)
    requires tree { IsTree nodes.old }
    requires inside { at < length nodes.old }
    requires within { position < length (links nodes.old at).0 }
    requires field { (d : Name × ℕ)
        → child_number nodes.old at (FieldHop (slice_index_or (links nodes.old at).0 position d).0) ≡ Some field }
    ensures same { SameButFlags nodes.old nodes.new }
    ensures room { MoreRoom nodes.old nodes.new }
    ensures shown { (e : Element) (off : Element → Bool) (d : Name × ℕ) → number nodes.old e ≡ Some at
        → ShownBut nodes.old (λ x. is_same x (Field e (slice_index_or (links nodes.old at).0 position d).0) || off x)
        → ShownBut nodes.new off }
    ensures empty { (e : Element) → number nodes.old e ≡ Some at → AreEmpty nodes.old → AreEmpty nodes.new }
{
    let stands = is_present(nodes, field);
    let node = node_at_mut(nodes, at);
    node.fields.set_flag(position, stands);
}

/// Sets the flag of a node's field, if the field has a node, and returns that node's number. A binary search, as `Fields::locate`.
fn show_field(nodes: &mut [Node], at: NodeNumber, key: &Key) -> Option<NodeNumber>
    requires tree { IsTree nodes.old }
    requires inside { at < length nodes.old }
    ensures same { SameButFlags nodes.old nodes.new }
    ensures number { result ≡ child_number nodes.old at (FieldHop key.now) }
    ensures shown { (e : Element) (off : Element → Bool) → number nodes.old e ≡ Some at
        → ShownBut nodes.old (λ x. is_same x (Field e key.now) || off x) → ShownBut nodes.new off }
{
    let (position, number) = node_at(nodes, at).fields.locate(key)?;
    let field = NodeNumber::new(number);
    flag_field(nodes, at, position, field);
    Some(field)
}

/// Shows or hides an item of a node's list, if the item has a node, and returns that node's number.
fn show_entry(nodes: &mut [Node], at: NodeNumber, id: &OpId) -> Option<NodeNumber>
    requires tree { IsTree nodes.old }
    requires inside { at < length nodes.old }
    ensures same { SameButFlags nodes.old nodes.new }
    ensures number { result ≡ child_number nodes.old at (ItemHop id.now) }
    ensures shown { (e : Element) (off : Element → Bool) → number nodes.old e ≡ Some at
        → ShownBut nodes.old (λ x. is_same x (Item e id.now) || off x) → ShownBut nodes.new off }
{
    let item = item_of(nodes, at, id)?;
    show_item(nodes, at, id, item);
    Some(item)
}

/// Goes one hop down, and sets what the list shows there, or the field's flag. Returns the number of the node there, if there is one.
fn show_hop(nodes: &mut [Node], at: NodeNumber, hop: &Hop) -> Option<NodeNumber>
    requires tree { IsTree nodes.old }
    requires inside { at < length nodes.old }
    ensures same { SameButFlags nodes.old nodes.new }
    ensures number { result ≡ child_number nodes.old at (hop_of hop.now) }
    ensures shown { (e : Element) (off : Element → Bool) → number nodes.old e ≡ Some at
        → ShownBut nodes.old (λ x. is_same x (child e (hop_of hop.now)) || off x) → ShownBut nodes.new off }
{
    match hop {
        Hop::Field(key) => show_field(nodes, at, key),
        Hop::Item(id) => show_entry(nodes, at, id),
    }
}

/// Goes down a path hop by hop, as far as there are nodes. Returns the number of the last, if all are there.
fn show_path(nodes: &mut [Node], path: &[Hop]) -> Option<NodeNumber>
    requires { IsTree nodes.old }
    ensures same { SameButFlags nodes.old nodes.new }
    ensures number { result ≡ number nodes.old (end_of (map hop_of path.now)) }
    ensures inside { IfSome result (λ at. at < length nodes.new) }
    ensures shown { (off : Element → Bool)
        → ShownBut nodes.old (λ x. is_under (end_of (map hop_of path.now)) x || off x) → ShownBut nodes.new off }
{
    let mut at = NodeNumber::ROOT;
    for hop in path {
        match show_hop(nodes, at, hop) {
            Some(next) => at = next,
            None => return None,
        }
    }
    Some(at)
}

/// Sets what the lists show, and the flags of fields, on the way down a path.
fn show_at(nodes: &mut [Node], path: &[Hop])
    requires { IsTree nodes.old }
    ensures same { SameButFlags nodes.old nodes.new }
    ensures shown { ShownBut nodes.old (is_under (end_of (map hop_of path.now)))
        → AreShown nodes.new × AreEmpty nodes.new }
{
    let _end = show_path(nodes, path);
}

/// Sets what the lists show, and the flags of fields, on the way to a new item of a list, and at it.
fn show_new(nodes: &mut [Node], slot: &Slot<'_>, id: &OpId)
    requires { IsTree nodes.old }
    ensures same { SameButFlags nodes.old nodes.new }
    ensures shown { ShownBut nodes.old (is_under (Item (end_of (map hop_of slot.now.list.now)) id.now))
        → AreShown nodes.new × AreEmpty nodes.new }
{
    if let Some(at) = show_path(nodes, slot.list) {
        let _item = show_entry(nodes, at, id);
    }
}

/// The same for the item that an insert at this place adds.
fn show_insert(nodes: &mut [Node], place: &Place, id: &OpId)
    requires { IsTree nodes.old }
    ensures same { SameButFlags nodes.old nodes.new }
    ensures shown { ShownBut nodes.old (is_under (target_in (slot_of (Insert EmptyMap) place.now) id.now place.now))
        → AreShown nodes.new × AreEmpty nodes.new }
{
    match slot_of(place) {
        Some(slot) => show_new(nodes, &slot, id),
        None => show_at(nodes, place.hops()),
    }
}

/// Sets what the lists show, their bounds of empty items, and the flags of fields, on the way to an operation's target, after it was
/// applied: beneath the target all are right already.
pub fn show(nodes: &mut [Node], op: &Op)
    requires { IsTree nodes.old }
    ensures same { SameButFlags nodes.old nodes.new }
    ensures shown { ShownBut nodes.old
        (is_under (target_in (slot_of (mutation_of op.now.mutation) op.now.place) op.now.id op.now.place))
        → AreShown nodes.new × AreEmpty nodes.new }
{
    match &op.mutation {
        Mutation::Assign(_) => show_at(nodes, op.place.hops()),
        Mutation::Insert(_) => show_insert(nodes, &op.place, &op.id),
        Mutation::Delete => show_at(nodes, op.place.hops()),
    }
}
