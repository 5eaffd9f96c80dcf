//! From node to node, down a path.

ghost use Rattle.std.specs.Prelude.{◌≡◌, ◌<◌, ◌≤◌, ℕ, Option, Some, None, false, true, length, map, slice_get, slice_index_or, IfSome};
ghost use Rattle.semantics.specs.Ids.{OpId as TheId};
ghost use Rattle.semantics.specs.Elements.{Element, Field, Item, Name};
ghost use Rattle.semantics.specs.Context.{has_item};
ghost use Rattle.semantics.specs.DocumentAnswer.{is_any};
ghost use Rattle.semantics.specs.Paths.{ItemHop};
ghost use Rattle.operation.specs.cursor.Steps.{hop_of};
ghost use Rattle.tree.specs.Nodes.{IsTree, child_number, context, is_flagged, links, next_number, node_in, number, order_of};
ghost use Rattle.tree.specs.Shown.{AreEmpty};
ghost use Rattle.tree.specs.Writes.{end_of};

use crate::node::{Node, NodeNumber, node_at};
use ids::OpId;
use operation::{Hop, Key};

/// How many fields have a node beneath this one.
pub fn count_fields(nodes: &[Node], at: NodeNumber) -> usize
    requires { at < length nodes.now }
    ensures { result ≡ length (links nodes.now at).0 }
{
    node_at(nodes, at).fields.len()
}

/// How many items have a node beneath this one.
pub fn count_items(nodes: &[Node], at: NodeNumber) -> usize
    requires { at < length nodes.now }
    ensures { result ≡ length (links nodes.now at).1 }
{
    node_at(nodes, at).items.len()
}

/// The number of a field's node, by the field's index.
pub fn field_at(nodes: &[Node], at: NodeNumber, position: usize) -> NodeNumber
    requires tree { IsTree nodes.now }
    requires inside { at < length nodes.now }
    requires within { position < length (links nodes.now at).0 }
    ensures above { at < result }
    ensures within { result < length nodes.now }
    ensures number { (e : Element) (d : Name × ℕ) → number nodes.now e ≡ Some at
        → number nodes.now (Field e (slice_index_or (links nodes.now at).0 position d).0) ≡ Some result }
{
    let (_, field) = keyed_field_at(nodes, at, position);
    field
}

/// A field's key and the number of its node, by the field's index.
pub fn keyed_field_at(nodes: &[Node], at: NodeNumber, position: usize) -> (&Key, NodeNumber)
    requires tree { IsTree nodes.now }
    requires inside { at < length nodes.now }
    requires within { position < length (links nodes.now at).0 }
    ensures key { (d : Name × ℕ) → (slice_index_or (links nodes.now at).0 position d).0 ≡ result.0.now }
    ensures above { at < result.1 }
    ensures within { result.1 < length nodes.now }
    ensures number { (e : Element) (d : Name × ℕ) → number nodes.now e ≡ Some at
        → number nodes.now (Field e (slice_index_or (links nodes.now at).0 position d).0) ≡ Some result.1 }
{
    let (key, number) = node_at(nodes, at).fields.at(position);
    (key, NodeNumber::new(number))
}

/// The index of the first field, from this one on, whose flag is raised, or how many fields there are: those that it skips are empty. Looks
/// at many flags at a time.
pub fn next_field(nodes: &[Node], at: NodeNumber, from: usize) -> usize
    requires tree { IsTree nodes.now }
    requires inside { at < length nodes.now }
    requires from { from ≤ length (links nodes.now at).0 }
    ensures from { from ≤ result }
    ensures within { result ≤ length (links nodes.now at).0 }
    ensures passed { (e : Element) (i : ℕ) (d : Name × ℕ) → number nodes.now e ≡ Some at → AreEmpty nodes.now → from ≤ i → i < result
        → is_any ((context nodes.now).presence (Field e (slice_index_or (links nodes.now at).0 i d).0)) ≡ false }
    ensures flagged { (d : Name × ℕ) → result < length (links nodes.now at).0
        → is_flagged (slice_get nodes.now at) (slice_index_or (links nodes.now at).0 result d).0 ≡ true }
{
    node_at(nodes, at).fields.next_flagged(from)
}

/// The number of an item's node, by the item's index.
pub fn item_at(nodes: &[Node], at: NodeNumber, position: usize) -> NodeNumber
    requires tree { IsTree nodes.now }
    requires inside { at < length nodes.now }
    requires within { position < length (links nodes.now at).1 }
    ensures above { at < result }
    ensures within { result < length nodes.now }
    ensures number { (e : Element) (d : TheId × ℕ) → number nodes.now e ≡ Some at
        → number nodes.now (Item e (slice_index_or (links nodes.now at).1 position d).0) ≡ Some result }
{
    NodeNumber::new(node_at(nodes, at).items.at(position).1)
}

/// The number of the node one hop down, if there is one. Binary search.
pub fn child_of(nodes: &[Node], at: NodeNumber, hop: &Hop) -> Option<NodeNumber>
    requires inside { at < length nodes.now }
    ensures { result ≡ child_number nodes.now at (hop_of hop.now) }
{
    let node = node_at(nodes, at);
    let child = match hop {
        Hop::Field(key) => node.fields.get(key),
        Hop::Item(id) => node.items.get(id),
    };
    child.map(NodeNumber::new)
}

/// The same from a node that may not have been made.
pub fn next_of(nodes: &[Node], node: Option<NodeNumber>, hop: &Hop) -> Option<NodeNumber>
    requires { IfSome node (λ i. i < length nodes.now) }
    ensures { result ≡ next_number nodes.now node (hop_of hop.now) }
{
    child_of(nodes, node?, hop)
}

/// The number of an item's node, by the item's id. Binary search.
pub fn item_of(nodes: &[Node], at: NodeNumber, id: &OpId) -> Option<NodeNumber>
    requires { at < length nodes.now }
    ensures { result ≡ child_number nodes.now at (ItemHop id.now) }
{
    node_at(nodes, at).items.get(id).map(NodeNumber::new)
}

/// Whether this item was ever in the list at a node that may not have been made. A binary search.
pub fn is_listed(nodes: &[Node], node: Option<NodeNumber>, id: &OpId) -> bool
    requires { IfSome node (λ at. at < length nodes.now) }
    ensures { result ≡ has_item id.now (order_of (node_in nodes.now node)) }
{
    match node {
        Some(at) => node_at(nodes, at).order.contains(id),
        None => false,
    }
}

/// The number of the node at the end of a path from the root, if there is one.
pub fn walk(nodes: &[Node], path: &[Hop]) -> Option<NodeNumber>
    requires { IsTree nodes.now }
    ensures number { result ≡ number nodes.now (end_of (map hop_of path.now)) }
    ensures inside { IfSome result (λ at. at < length nodes.now) }
{
    let mut at = NodeNumber::ROOT;
    for hop in path {
        match child_of(nodes, at, hop) {
            Some(child) => at = child,
            None => return None,
        }
    }
    Some(at)
}
