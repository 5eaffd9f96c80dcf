//! The steps of a walk along an expression.

ghost use Rattle.std.specs.Prelude.{◌≡◌, ◌<◌, ◌+◌, List, IfOk, IfSome, length, slice_get, false, true};
ghost use Rattle.std.specs.Result.{result_map_both};
ghost use Rattle.semantics.specs.Elements.{At, Doc, Element, Place as ThePlace};
ghost use Rattle.semantics.specs.DocumentAnswer.{lists_of, visible_items};
ghost use Rattle.semantics.specs.Limits.{most_keys};
ghost use Rattle.semantics.specs.Operations.{element_of};
ghost use Rattle.semantics.specs.Paths.{FieldHop, ItemHop};
ghost use Rattle.semantics.specs.Questions.{step_from};
ghost use Rattle.operation.specs.cursor.Steps.{step_of};
ghost use Rattle.tree.specs.Nodes.{IsTree, context, next_number, number};
ghost use Rattle.tree.specs.Shown.{AreShown};
ghost use Rattle.tree.specs.Spots.{IsSpot, target_from};

use crate::answer::visible_item;
use crate::node::{Node, NodeNumber, node_at};
use crate::walk::{is_listed, item_of};
use ids::{OpId, Refusal};
use operation::{ExprStep as Step, Key, MOST_KEYS};

/// Where a walk along an expression stands: at an element or at the head of its list, with the element's node, if one was made, and
/// the element's depth.
#[derive(Clone, Copy, Debug)]
pub struct Spot {
    pub node: Option<NodeNumber>,
    depth: usize,
    pub is_head: bool,
}

/// Where a step leads from an element.
#[derive(Clone, Copy, Debug)]
pub enum Target<'a> {
    /// To the head of its list.
    Head,
    /// To the field with this key.
    Field(&'a Key),
    /// To the item with this id.
    Item(OpId),
}

impl Spot {
    /// At the root.
    pub fn root() -> Spot
        ensures { (ns : List Node) → IsSpot ns result (At Doc) }
    {
        Spot {
            node: Some(NodeNumber::ROOT),
            depth: 0,
            is_head: false,
        }
    }

    /// Where a step leads from here. An item is looked up in the list's order: for an index this looks at how many items each block shows,
    /// for an id it is a binary search. Allocates nothing.
    ///
    /// # Errors
    /// `AtHead` from a head, else `TooDeep` from an element 32 keys deep, else `PastEnd` if the list has fewer visible items than the
    /// index, or never had an item with the id.
    // Inlined into both walks, so that a question's target is never written to memory.
    #[inline(always)]
    pub fn target<'a>(&self, nodes: &[Node], step: &'a Step) -> Result<Target<'a>, Refusal>
        requires tree { IsTree nodes.now }
        requires shown { AreShown nodes.now }
        requires spot { (p : ThePlace) × IsSpot nodes.now self.now p }
        ensures step { (p : ThePlace) → IsSpot nodes.now self.now p → step_from (lists_of (context nodes.now)) p (step_of step.now)
            ≡ result_map_both (target_from (element_of p)) (λ why. why) result }
        ensures room { IfOk result (λ t. self.now.depth < most_keys) }
    {
        if self.is_head {
            return Err(Refusal::AtHead);
        }
        if self.depth >= MOST_KEYS {
            return Err(Refusal::TooDeep);
        }
        match step {
            Step::Get(key) => Ok(Target::Field(key)),
            Step::Idx(0) => Ok(Target::Head),
            Step::Idx(index) => match item_in(nodes, self.node, *index - 1) {
                Some(id) => Ok(Target::Item(id)),
                None => Err(Refusal::PastEnd),
            },
            Step::Item(id) if is_listed(nodes, self.node, id) => Ok(Target::Item(*id)),
            Step::Item(_) => Err(Refusal::PastEnd),
        }
    }

    /// The spot that a target leads to. A binary search, unless it is the head.
    #[inline(always)]
    pub fn after(&self, nodes: &[Node], target: &Target) -> Spot
        requires tree { IsTree nodes.now }
        requires spot { (p : ThePlace) × IsSpot nodes.now self.now p }
        requires room { self.now.depth < most_keys }
        ensures { (p : ThePlace) → IsSpot nodes.now self.now p → IsSpot nodes.now result (target_from (element_of p) target.now) }
    {
        match target {
            Target::Head => self.head(),
            Target::Field(key) => self.below(field_of(nodes, self.node, key)),
            Target::Item(id) => self.below(item_node(nodes, self.node, id)),
        }
    }

    /// The spot of a child whose node this is.
    fn below(&self, node: Option<NodeNumber>) -> Spot
        requires { self.now.depth < most_keys }
        ensures node { result.node ≡ node }
        ensures depth { result.depth ≡ self.now.depth + 1 }
        ensures head { result.is_head ≡ false }
    {
        Spot {
            node,
            depth: self.depth + 1,
            is_head: false,
        }
    }

    /// The spot at the head of the list here.
    fn head(&self) -> Spot
        ensures node { result.node ≡ self.now.node }
        ensures depth { result.depth ≡ self.now.depth }
        ensures head { result.is_head ≡ true }
    {
        Spot {
            is_head: true,
            ..*self
        }
    }
}

/// The visible item with this index.
fn item_in(nodes: &[Node], node: Option<NodeNumber>, index: u64) -> Option<OpId>
    requires tree { IsTree nodes.now }
    requires shown { AreShown nodes.now }
    requires inside { IfSome node (λ at. at < length nodes.now) }
    ensures { (e : Element) → number nodes.now e ≡ node → result ≡ slice_get (visible_items (context nodes.now) e) index }
{
    visible_item(nodes, node?, index)
}

/// The node of a field.
fn field_of(nodes: &[Node], node: Option<NodeNumber>, key: &Key) -> Option<NodeNumber>
    requires tree { IsTree nodes.now }
    requires inside { IfSome node (λ at. at < length nodes.now) }
    ensures { result ≡ next_number nodes.now node (FieldHop key.now) }
{
    node_at(nodes, node?).fields.get(key).map(NodeNumber::new)
}

/// The node of an item.
fn item_node(nodes: &[Node], node: Option<NodeNumber>, id: &OpId) -> Option<NodeNumber>
    requires tree { IsTree nodes.now }
    requires inside { IfSome node (λ at. at < length nodes.now) }
    ensures { result ≡ next_number nodes.now node (ItemHop id.now) }
{
    item_of(nodes, node?, id)
}
