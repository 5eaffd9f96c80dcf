//! Writing along a path and at its end.

ghost use Rattle.std.specs.Prelude.{◌≡◌, ◌<◌, ◌≤◌, ℕ, List, Option, Some, IsSome, length, map, option_map, slice_get};
ghost use Rattle.semantics.specs.Elements.{Element, Field, Item, Name, depth, is_under};
ghost use Rattle.operation.specs.value.Values.{scalar_of};
ghost use Rattle.operation.specs.cursor.Steps.{hop_of, tag_of};
ghost use Rattle.tree.specs.Nested.{IsNested};
ghost use Rattle.tree.specs.Nodes.{AreIndexedNodes, IsTree, MoreRoom, RoomElse, SameLinks, child_number, context, node_at, number};
ghost use Rattle.tree.specs.Nodes.{presence_room};
ghost use Rattle.tree.specs.Nodes.{register_room};
ghost use Rattle.tree.specs.Shown.{AreEmpty, AreShown, ShownBut};
ghost use Rattle.tree.specs.Writes.{HasRoom, IsStamp, assigned, deps_of, end_of, entered, entered_by, mark, name_at, registered};

use crate::clear::clear_at;
use crate::node::{Node, NodeNumber, node_at_mut};
use crate::stamp::Stamp;
use crate::walk::child_of;
use operation::{Hop, Scalar, Tag, VersionVector};

/// Puts the stamp's id into a node's presence.
fn mark_node(nodes: &mut [Node], at: NodeNumber, stamp: &Stamp, tag: Tag)
    requires tree { IsTree nodes.old }
    requires stamp { IsStamp stamp.now }
    requires inside { at < length nodes.old }
    requires room { 0 < presence_room (slice_get nodes.old at) }
    ensures links { SameLinks nodes.old nodes.new }
    ensures room { RoomElse at nodes.old nodes.new }
    ensures indexed { AreIndexedNodes stamp.now.table.now.numbers nodes.old → AreIndexedNodes stamp.now.table.now.numbers nodes.new }
    ensures marked { (e : Element) → number nodes.old e ≡ Some at
        → context nodes.new ≡ mark (context nodes.old) e stamp.now.id (tag_of tag) }
{
    let node = node_at_mut(nodes, at);
    node.presence.put(stamp.id, stamp.index, tag);
}

/// Notes that a field was written to.
fn name_node(nodes: &mut [Node], at: NodeNumber)
    requires tree { IsTree nodes.old }
    requires inside { at < length nodes.old }
    ensures links { SameLinks nodes.old nodes.new }
    ensures room { MoreRoom nodes.old nodes.new }
    ensures indexed { (table : List ℕ) → AreIndexedNodes table nodes.old → AreIndexedNodes table nodes.new }
    ensures named { (e : Element) (n : Name) → number nodes.old (Field e n) ≡ Some at
        → context nodes.new ≡ name_at (context nodes.old) e n }
{
    let node = node_at_mut(nodes, at);
    node.is_written = true;
}

/// Puts the stamp's id into the presence of a node, and goes to a child.
fn enter(nodes: &mut [Node], at: NodeNumber, hop: &Hop, stamp: &Stamp) -> NodeNumber
    requires tree { IsTree nodes.old }
    requires stamp { IsStamp stamp.now }
    requires inside { at < length nodes.old }
    requires room { 0 < presence_room (slice_get nodes.old at) }
    requires child { IsSome (child_number nodes.old at (hop_of hop.now)) }
    ensures links { SameLinks nodes.old nodes.new }
    ensures room { RoomElse at nodes.old nodes.new }
    ensures indexed { AreIndexedNodes stamp.now.table.now.numbers nodes.old → AreIndexedNodes stamp.now.table.now.numbers nodes.new }
    ensures child { child_number nodes.old at (hop_of hop.now) ≡ Some result }
    ensures entered { (e : Element) → number nodes.old e ≡ Some at
        → context nodes.new ≡ entered_by (context nodes.old) e (hop_of hop.now) stamp.now.id }
{
    let child = child_of(nodes, at, hop).unwrap();
    match hop {
        Hop::Field(_) => {
            mark_node(nodes, at, stamp, Tag::Map);
            name_node(nodes, child);
        }
        Hop::Item(_) => mark_node(nodes, at, stamp, Tag::List),
    }
    child
}

/// Puts the stamp's id into the presence of each node of a path, and returns the number of the last.
pub fn write_path(nodes: &mut [Node], path: &[Hop], stamp: &Stamp, tag: Tag) -> NodeNumber
    requires tree { IsTree nodes.old }
    requires stamp { IsStamp stamp.now }
    requires room { HasRoom nodes.old (map hop_of path.now) }
    ensures links { SameLinks nodes.old nodes.new }
    ensures register_room { (i : ℕ) → register_room (slice_get nodes.old i) ≤ register_room (slice_get nodes.new i) }
    ensures deeper { (e : Element) → length path.now < depth e → 0 < presence_room (node_at nodes.old e)
        → 0 < presence_room (node_at nodes.new e) }
    ensures indexed { AreIndexedNodes stamp.now.table.now.numbers nodes.old → AreIndexedNodes stamp.now.table.now.numbers nodes.new }
    ensures inside { result < length nodes.new }
    ensures at { number nodes.old (end_of (map hop_of path.now)) ≡ Some result }
    ensures written { context nodes.new
        ≡ mark (entered (context nodes.old) (end_of (map hop_of path.now)) stamp.now.id) (end_of (map hop_of path.now)) stamp.now.id
        (tag_of tag) }
{
    let mut at = NodeNumber::ROOT;
    for hop in path {
        at = enter(nodes, at, hop, stamp);
    }
    mark_node(nodes, at, stamp, tag);
    at
}

/// Puts a scalar into a node's register.
fn put_register(nodes: &mut [Node], at: NodeNumber, stamp: &Stamp, scalar: Scalar)
    requires tree { IsTree nodes.old }
    requires stamp { IsStamp stamp.now }
    requires inside { at < length nodes.old }
    requires room { 0 < register_room (slice_get nodes.old at) }
    ensures links { SameLinks nodes.old nodes.new }
    ensures indexed { AreIndexedNodes stamp.now.table.now.numbers nodes.old → AreIndexedNodes stamp.now.table.now.numbers nodes.new }
    ensures written { (e : Element) → number nodes.old e ≡ Some at
        → context nodes.new ≡ registered (context nodes.old) e stamp.now.id (Some (scalar_of scalar)) }
{
    let node = node_at_mut(nodes, at);
    node.register.put(stamp.id, stamp.index, scalar);
}

/// Puts a scalar, if there is one, into a node's register.
fn put_scalar(nodes: &mut [Node], at: NodeNumber, stamp: &Stamp, scalar: Option<Scalar>)
    requires tree { IsTree nodes.old }
    requires stamp { IsStamp stamp.now }
    requires indexed { AreIndexedNodes stamp.now.table.now.numbers nodes.old }
    requires inside { at < length nodes.old }
    requires room { IsSome scalar → 0 < register_room (slice_get nodes.old at) }
    ensures tree { IsTree nodes.new }
    ensures links { SameLinks nodes.old nodes.new }
    ensures indexed { AreIndexedNodes stamp.now.table.now.numbers nodes.new }
    ensures written { (e : Element) → number nodes.old e ≡ Some at
        → context nodes.new ≡ registered (context nodes.old) e stamp.now.id (option_map scalar_of scalar) }
{
    if let Some(scalar) = scalar {
        put_register(nodes, at, stamp, scalar);
    }
}

/// Writes an operation's id and scalar at a node.
pub fn settle(nodes: &mut [Node], at: NodeNumber, stamp: &Stamp, tag: Tag, scalar: Option<Scalar>)
    requires tree { IsTree nodes.old }
    requires stamp { IsStamp stamp.now }
    requires indexed { AreIndexedNodes stamp.now.table.now.numbers nodes.old }
    requires inside { at < length nodes.old }
    requires room { 0 < presence_room (slice_get nodes.old at) }
    requires register { IsSome scalar → 0 < register_room (slice_get nodes.old at) }
    ensures tree { IsTree nodes.new }
    ensures links { SameLinks nodes.old nodes.new }
    ensures indexed { AreIndexedNodes stamp.now.table.now.numbers nodes.new }
    ensures settled { (e : Element) → number nodes.old e ≡ Some at
        → context nodes.new
        ≡ registered (mark (context nodes.old) e stamp.now.id (tag_of tag)) e stamp.now.id (option_map scalar_of scalar) }
{
    mark_node(nodes, at, stamp, tag);
    put_scalar(nodes, at, stamp, scalar);
}

/// Clears what stands at the end of a path, and writes there. What lists show, their bounds of empty items, and the flags of fields may be
/// wrong then on the way there, and nowhere else.
pub fn assign(
    nodes: &mut [Node],
    path: &[Hop],
    stamp: &Stamp,
    column: &mut VersionVector,
    tag: Tag,
    scalar: Option<Scalar>,
)
    requires tree { IsTree nodes.old }
    requires stamp { IsStamp stamp.now }
    requires width { length stamp.now.table.now.numbers ≤ length column.old }
    requires indexed { AreIndexedNodes stamp.now.table.now.numbers nodes.old }
    requires nested { IsNested (context nodes.old) }
    requires empty { AreEmpty nodes.old }
    requires room { HasRoom nodes.old (map hop_of path.now) }
    requires register { IsSome scalar → 0 < register_room (node_at nodes.old (end_of (map hop_of path.now))) }
    ensures width { length column.new ≡ length column.old }
    ensures tree { IsTree nodes.new }
    ensures indexed { AreIndexedNodes stamp.now.table.now.numbers nodes.new }
    ensures shown { AreShown nodes.old → ShownBut nodes.new (is_under (end_of (map hop_of path.now))) }
    ensures assigned { context nodes.new
        ≡ assigned (context nodes.old) stamp.now.id (deps_of stamp.now) (end_of (map hop_of path.now)) (tag_of tag)
        (option_map scalar_of scalar) }
{
    clear_at(nodes, path, stamp, column);
    let at = write_path(nodes, path, stamp, tag);
    put_scalar(nodes, at, stamp, scalar);
}
