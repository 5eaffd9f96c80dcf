//! Making nodes and room for ids, which changes no content.

ghost use Rattle.std.specs.Prelude.{◌≡◌, ◌<◌, ◌≤◌, ℕ, None, Some, OnOk, IfOk, length, slice_get};
ghost use Rattle.std.specs.Borrow.{sem};
ghost use Rattle.semantics.specs.Paths.{Hop as TheHop, FieldHop, ItemHop};
ghost use Rattle.operation.specs.cursor.Steps.{hop_of};
ghost use Rattle.tree.specs.Lending.{LendsNodeIn};
ghost use Rattle.tree.specs.Nodes.{IsEmptyNode, IsOrphan, IsTree, Kept, child_number, child_room, links, order_room, presence_room};
ghost use Rattle.tree.specs.Nodes.{register_room};

use crate::node::{Node, NodeNumber};
use ids::OpId;
use operation::{Hop, Key};
use std::alloc::{AllocError, Global};

/// The node with a number, in the vector that holds them all.
fn node_in_vec(nodes: &mut Vec<Node>, at: NodeNumber) -> &mut Node
    requires { at < length nodes.old.items }
    ensures* lends { sem 𝓛 (LendsNodeIn nodes.entry at result) }
    ensures node { slice_get nodes.old.items at ≡ Some result.now }
{
    &mut nodes[at.index()]
}

/// Makes room for one more id in a node's presence.
pub fn reserve_presence(nodes: &mut Vec<Node>, at: NodeNumber) -> Result<(), AllocError>
    requires tree { IsTree nodes.old.items }
    requires inside { at < length nodes.old.items }
    ensures kept { Kept nodes.old.items nodes.new.items }
    ensures room { OnOk result (0 < presence_room (slice_get nodes.new.items at)) }
{
    let node = node_in_vec(nodes, at);
    node.presence.reserve_one()
}

/// Makes room for one more id in a node's register.
pub fn reserve_register(nodes: &mut Vec<Node>, at: NodeNumber) -> Result<(), AllocError>
    requires tree { IsTree nodes.old.items }
    requires inside { at < length nodes.old.items }
    ensures kept { Kept nodes.old.items nodes.new.items }
    ensures room { OnOk result (0 < register_room (slice_get nodes.new.items at)) }
{
    let node = node_in_vec(nodes, at);
    node.register.reserve_one()
}

/// Makes room for one more item in the order of a node's list.
pub fn reserve_order(nodes: &mut Vec<Node>, at: NodeNumber) -> Result<(), AllocError>
    requires tree { IsTree nodes.old.items }
    requires inside { at < length nodes.old.items }
    ensures kept { Kept nodes.old.items nodes.new.items }
    ensures room { OnOk result (0 < order_room (slice_get nodes.new.items at)) }
{
    let node = node_in_vec(nodes, at);
    node.order.reserve_one()
}

/// Makes room for one more child.
fn reserve_child(nodes: &mut Vec<Node>, at: NodeNumber, hop: &Hop) -> Result<(), AllocError>
    requires tree { IsTree nodes.old.items }
    requires inside { at < length nodes.old.items }
    ensures kept { Kept nodes.old.items nodes.new.items }
    ensures shape { (i : ℕ) → links nodes.old.items i ≡ links nodes.new.items i }
    ensures room { OnOk result (0 < child_room (slice_get nodes.new.items at) (hop_of hop.now)) }
{
    let node = node_in_vec(nodes, at);
    match hop {
        Hop::Field(_) => node.fields.reserve_one(),
        Hop::Item(_) => node.items.reserve_one(),
    }
}

/// Appends an empty node, which has no parent yet, and returns its number.
fn push_node(nodes: &mut Vec<Node>, fresh: Node) -> Result<NodeNumber, AllocError>
    requires tree { IsTree nodes.old.items }
    requires empty { IsEmptyNode fresh }
    ensures kept { Kept nodes.old.items nodes.new.items }
    ensures orphan { IfOk result (λ j. IsOrphan nodes.new.items j × (j ≡ length nodes.old.items)) }
    ensures shape { (i : ℕ) → links nodes.old.items i ≡ links nodes.new.items i }
    ensures rooms { (i : ℕ) (k : TheHop) → child_room (slice_get nodes.old.items i) k ≤ child_room (slice_get nodes.new.items i) k }
{
    let number = NodeNumber::new(nodes.len());
    nodes.push(fresh)?;
    Ok(number)
}

/// Makes a node a field of another.
fn link_field(nodes: &mut Vec<Node>, at: NodeNumber, key: Key, number: NodeNumber)
    requires tree { IsTree nodes.old.items }
    requires above { at < number }
    requires orphan { IsOrphan nodes.old.items number }
    requires absent { child_number nodes.old.items at (FieldHop key) ≡ None }
    requires room { 0 < child_room (slice_get nodes.old.items at) (FieldHop key) }
    ensures kept { Kept nodes.old.items nodes.new.items }
    ensures child { child_number nodes.new.items at (FieldHop key) ≡ Some number }
{
    let node = node_in_vec(nodes, at);
    node.fields.put(key, number.index());
}

/// Makes a node an item of another.
fn link_item(nodes: &mut Vec<Node>, at: NodeNumber, id: OpId, number: NodeNumber)
    requires tree { IsTree nodes.old.items }
    requires above { at < number }
    requires orphan { IsOrphan nodes.old.items number }
    requires absent { child_number nodes.old.items at (ItemHop id) ≡ None }
    requires room { 0 < child_room (slice_get nodes.old.items at) (ItemHop id) }
    ensures kept { Kept nodes.old.items nodes.new.items }
    ensures child { child_number nodes.new.items at (ItemHop id) ≡ Some number }
{
    let node = node_in_vec(nodes, at);
    node.items.put(id, number.index());
}

/// Makes a child that isn't there yet, and returns its number.
fn make_child(
    nodes: &mut Vec<Node>,
    at: NodeNumber,
    hop: &Hop,
    alloc: Global,
) -> Result<NodeNumber, AllocError>
    requires tree { IsTree nodes.old.items }
    requires inside { at < length nodes.old.items }
    requires absent { child_number nodes.old.items at (hop_of hop.now) ≡ None }
    ensures kept { Kept nodes.old.items nodes.new.items }
    ensures child { IfOk result (λ j. child_number nodes.new.items at (hop_of hop.now) ≡ Some j) }
{
    reserve_child(nodes, at, hop)?;
    match hop {
        Hop::Field(key) => {
            let key = key.clone()?;
            let number = push_node(nodes, Node::new(alloc))?;
            link_field(nodes, at, key, number);
            Ok(number)
        }
        Hop::Item(id) => {
            let number = push_node(nodes, Node::new(alloc))?;
            link_item(nodes, at, *id, number);
            Ok(number)
        }
    }
}

/// The number of a child, if there is one. A field's position is remembered, so that applying the operation finds it with one comparison.
fn seek_child(nodes: &mut Vec<Node>, at: NodeNumber, hop: &Hop) -> Option<NodeNumber>
    requires tree { IsTree nodes.old.items }
    requires inside { at < length nodes.old.items }
    ensures kept { Kept nodes.old.items nodes.new.items }
    ensures shape { (i : ℕ) → links nodes.old.items i ≡ links nodes.new.items i }
    ensures child { result ≡ child_number nodes.old.items at (hop_of hop.now) }
{
    let node = node_in_vec(nodes, at);
    match hop {
        Hop::Field(key) => node.fields.seek(key).map(NodeNumber::new),
        Hop::Item(id) => node.items.get(id).map(NodeNumber::new),
    }
}

/// The number of a child, which is made if it isn't there yet.
pub fn reach(
    nodes: &mut Vec<Node>,
    at: NodeNumber,
    hop: &Hop,
    alloc: Global,
) -> Result<NodeNumber, AllocError>
    requires tree { IsTree nodes.old.items }
    requires inside { at < length nodes.old.items }
    ensures kept { Kept nodes.old.items nodes.new.items }
    ensures child { IfOk result (λ j. child_number nodes.new.items at (hop_of hop.now) ≡ Some j) }
{
    match seek_child(nodes, at, hop) {
        Some(child) => Ok(child),
        None => make_child(nodes, at, hop, alloc),
    }
}
