//! Nodes: the content of an element, and the nodes beneath it.

ghost use Rattle.std.specs.Prelude.{◌≡◌, ◌<◌, Some, length, slice_get};
ghost use Rattle.std.specs.Borrow.{sem};
ghost use Rattle.tree.specs.Lending.{LendsNode};
ghost use Rattle.tree.specs.Nodes.{IsEmptyNode};

use columns::{Fields, ListOrder, Numbers, Presence, Register};
use std::alloc::Global;
use std::marker::Model;

/// The number of a node: its index among the nodes of a tree. Contracts see the number.
#[derive(Clone, Copy, Debug, PartialEq, Eq)]
pub struct NodeNumber {
    index: usize,
}

impl Model for NodeNumber {
    ghost use Rattle.std.specs.Prelude.{ℕ};

    ghost Value = { ℕ };

    ghost view = { λ n. n.index };

    ghost inverse = { λ n. record { index = n } };
}

impl NodeNumber {
    /// The number of the root.
    pub const ROOT: NodeNumber = NodeNumber { index: 0 };

    /// The number of the node at this index.
    pub fn new(index: usize) -> NodeNumber
        ensures { result ≡ index }
    {
        NodeNumber { index }
    }

    /// The node's index.
    pub fn index(self) -> usize
        ensures { result ≡ self }
    {
        self.index
    }
}

/// The content of an element. Its children are given by their numbers.
#[derive(Debug, Drop)]
pub struct Node {
    pub presence: Presence,
    pub register: Register,
    /// The nodes of the map's fields. A field whose flag isn't raised is empty.
    pub fields: Fields,
    /// The nodes of the list's items.
    pub items: Numbers,
    /// Each item of the list whose id has a smaller counter is empty.
    pub empty_below: u64,
    /// The order of the list's items.
    pub order: ListOrder,
    /// Whether it was written to. A node that was only reserved isn't a field yet.
    pub is_written: bool,
}

impl Node {
    /// An empty node. Allocates nothing.
    pub fn new(alloc: Global) -> Node
        ensures { IsEmptyNode result }
    {
        Node {
            presence: Presence::new(alloc),
            register: Register::new(alloc),
            fields: Fields::new(alloc),
            items: Numbers::new(alloc),
            empty_below: 0,
            order: ListOrder::new(alloc),
            is_written: false,
        }
    }
}

/// The node with a number.
pub fn node_at(nodes: &[Node], at: NodeNumber) -> &Node
    requires { at < length nodes.now }
    ensures { slice_get nodes.now at ≡ Some result.now }
{
    &nodes[at.index]
}

/// The node with a number, mutably.
pub fn node_at_mut(nodes: &mut [Node], at: NodeNumber) -> &mut Node
    requires { at < length nodes.old }
    ensures* lends { sem 𝓛 (LendsNode nodes.entry at result) }
    ensures node { slice_get nodes.old at ≡ Some result.now }
{
    &mut nodes[at.index]
}
