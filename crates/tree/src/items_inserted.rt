//! Whether the items of a path are in their lists.

ghost use Rattle.std.specs.Prelude.{◌≡◌, ◌<◌, map, length, IfSome, IsTrue};
ghost use Rattle.semantics.specs.Context.{Context};
ghost use Rattle.operation.specs.cursor.Steps.{hop_of};
ghost use Rattle.tree.specs.Nodes.{IsTree, context, node_in, order_of};
ghost use Rattle.tree.specs.Writes.{end_of};
ghost use Rattle.tree.specs.Trees.{has_key, items_stand};

use crate::node::{Node, NodeNumber};
use crate::walk::{is_listed, next_of};
use operation::Hop;

/// Whether each item of the path was inserted into the list that it is entered from. A binary search for each hop, unless all are to
/// fields.
pub fn items_stand(nodes: &[Node], path: &[Hop]) -> bool
    requires { IsTree nodes.now }
    ensures { result ≡ items_stand (context nodes.now) (end_of (map hop_of path.now)) }
{
    if goes_by_fields(path) {
        return true;
    }
    let mut node = Some(NodeNumber::ROOT);
    for hop in path {
        let here = node;
        if !stands(nodes, here, hop) {
            return false;
        }
        node = next_of(nodes, node, hop);
    }
    true
}

/// Whether each hop of the path is to a field, so that there is no item to look for.
fn goes_by_fields(path: &[Hop]) -> bool
    ensures { IsTrue result → (C : Context) → IsTrue (items_stand C (end_of (map hop_of path.now))) }
{
    for hop in path {
        if let Hop::Item(_) = hop {
            return false;
        }
    }
    true
}

/// Whether the hop is to a field, or to an item of the list at a node.
fn stands(nodes: &[Node], node: Option<NodeNumber>, hop: &Hop) -> bool
    requires { IfSome node (λ i. i < length nodes.now) }
    ensures { result ≡ has_key (order_of (node_in nodes.now node)) (hop_of hop.now) }
{
    match hop {
        Hop::Field(_) => true,
        Hop::Item(id) => is_listed(nodes, node, id),
    }
}
