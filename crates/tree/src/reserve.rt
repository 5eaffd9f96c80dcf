//! Making all the nodes and the room that an operation needs along its path.

ghost use Rattle.std.specs.Prelude.{◌≡◌, ◌<◌, Some, IfOk, OnOk, length, map, option_map};
ghost use Rattle.semantics.specs.Elements.{Element, Item};
ghost use Rattle.semantics.specs.Operations.{Insert, scalar_in};
ghost use Rattle.operation.specs.value.Values.{scalar_of, value_of};
ghost use Rattle.operation.specs.cursor.Steps.{hop_of};
ghost use Rattle.operation.specs.Ops.{mutation_of, stamped_of};
ghost use Rattle.tree.specs.Nodes.{IsTree, Kept, node_at, number, order_room, presence_room, register_room};
ghost use Rattle.tree.specs.Writes.{HasRoom, RoomTo, end_of};
ghost use Rattle.tree.specs.Trees.{IsReserved};

use crate::grow::{reach, reserve_order, reserve_presence, reserve_register};
use crate::insert::slot_of;
use crate::node::{Node, NodeNumber};
use ids::OpId;
use operation::{Hop, Mutation, Op, Scalar, Val};
use std::alloc::{AllocError, Global};

/// Makes each node of a path, with room for one more id in each, and returns the number of the last.
fn reserve_path(
    nodes: &mut Vec<Node>,
    path: &[Hop],
    alloc: Global,
) -> Result<NodeNumber, AllocError>
    requires { IsTree nodes.old.items }
    ensures kept { Kept nodes.old.items nodes.new.items }
    ensures room { IfOk result
        (λ at. HasRoom nodes.new.items (map hop_of path.now) × (number nodes.new.items (end_of (map hop_of path.now)) ≡ Some at)) }
{
    let mut at = NodeNumber::ROOT;
    for hop in path {
        reserve_presence(nodes, at)?;
        at = reach(nodes, at, hop, alloc)?;
    }
    reserve_presence(nodes, at)?;
    Ok(at)
}

/// A copy of a value's scalar, `None` for an empty map or list.
fn copy_scalar(value: &Val) -> Result<Option<Scalar>, AllocError>
    ensures { IfOk result (λ s. option_map scalar_of s ≡ scalar_in (Some (value_of value.now))) }
{
    match value {
        Val::Scalar(scalar) => Ok(Some(scalar.clone()?)),
        Val::EmptyMap => Ok(None),
        Val::EmptyList => Ok(None),
    }
}

/// Makes the nodes and the room for an assign at the end of a path, and copies its scalar.
fn reserve_assign(
    nodes: &mut Vec<Node>,
    path: &[Hop],
    value: &Val,
    alloc: Global,
) -> Result<Option<Scalar>, AllocError>
    requires { IsTree nodes.old.items }
    ensures kept { Kept nodes.old.items nodes.new.items }
    ensures room { IfOk result (λ s. RoomTo nodes.new.items (end_of (map hop_of path.now))) }
    ensures register { IfOk result (λ s. 0 < register_room (node_at nodes.new.items (end_of (map hop_of path.now)))) }
    ensures scalar { IfOk result (λ s. option_map scalar_of s ≡ scalar_in (Some (value_of value.now))) }
{
    let at = reserve_path(nodes, path, alloc)?;
    reserve_register(nodes, at)?;
    copy_scalar(value)
}

/// Makes the node of an item, with room for one more id in its presence and its register.
fn reserve_item(
    nodes: &mut Vec<Node>,
    at: NodeNumber,
    id: OpId,
    alloc: Global,
) -> Result<(), AllocError>
    requires tree { IsTree nodes.old.items }
    requires inside { at < length nodes.old.items }
    ensures kept { Kept nodes.old.items nodes.new.items }
    ensures presence { OnOk result
        ((e : Element) → number nodes.new.items e ≡ Some at → 0 < presence_room (node_at nodes.new.items (Item e id))) }
    ensures register { OnOk result
        ((e : Element) → number nodes.new.items e ≡ Some at → 0 < register_room (node_at nodes.new.items (Item e id))) }
{
    let hop = Hop::Item(id);
    let item = reach(nodes, at, &hop, alloc)?;
    reserve_presence(nodes, item)?;
    reserve_register(nodes, item)
}

/// Makes the nodes and the room for an insert into the list at the end of a path, and copies its scalar.
fn reserve_insert(
    nodes: &mut Vec<Node>,
    list: &[Hop],
    id: OpId,
    value: &Val,
    alloc: Global,
) -> Result<Option<Scalar>, AllocError>
    requires { IsTree nodes.old.items }
    ensures kept { Kept nodes.old.items nodes.new.items }
    ensures room { IfOk result (λ s. RoomTo nodes.new.items (Item (end_of (map hop_of list.now)) id)) }
    ensures register { IfOk result (λ s. 0 < register_room (node_at nodes.new.items (Item (end_of (map hop_of list.now)) id))) }
    ensures order { IfOk result (λ s. 0 < order_room (node_at nodes.new.items (end_of (map hop_of list.now)))) }
    ensures scalar { IfOk result (λ s. option_map scalar_of s ≡ scalar_in (Some (value_of value.now))) }
{
    let at = reserve_path(nodes, list, alloc)?;
    reserve_order(nodes, at)?;
    reserve_item(nodes, at, id, alloc)?;
    copy_scalar(value)
}

/// Makes the nodes and the room for an insert into a slot, and copies its scalar.
fn reserve_slot(
    nodes: &mut Vec<Node>,
    op: &Op,
    value: &Val,
    alloc: Global,
) -> Result<Option<Scalar>, AllocError>
    requires tree { IsTree nodes.old.items }
    requires insert { mutation_of op.now.mutation ≡ Insert (value_of value.now) }
    ensures kept { Kept nodes.old.items nodes.new.items }
    ensures reserved { IfOk result
        (λ s. IsReserved nodes.new.items s (stamped_of op.now)) }
{
    match slot_of(&op.place) {
        Some(slot) => reserve_insert(nodes, slot.list, op.id, value, alloc),
        None => reserve_assign(nodes, op.place.hops(), value, alloc),
    }
}

/// Makes the nodes and the room that an operation needs, and copies its scalar.
pub fn reserve_operation(
    nodes: &mut Vec<Node>,
    op: &Op,
    alloc: Global,
) -> Result<Option<Scalar>, AllocError>
    requires { IsTree nodes.old.items }
    ensures kept { Kept nodes.old.items nodes.new.items }
    ensures reserved { IfOk result
        (λ s. IsReserved nodes.new.items s (stamped_of op.now)) }
{
    match &op.mutation {
        Mutation::Assign(value) => reserve_assign(nodes, op.place.hops(), value, alloc),
        Mutation::Insert(value) => reserve_slot(nodes, op, value, alloc),
        Mutation::Delete => Ok(None),
    }
}
