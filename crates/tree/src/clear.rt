//! Clearing an element and everything beneath it.

ghost use Rattle.std.specs.Prelude.{◌≡◌, ◌<◌, ◌≤◌, ◌&&◌, ◌||◌, ℕ, Bool, Some, cond, drop, length, map, min, nat_le, slice_get};
ghost use Rattle.std.specs.Prelude.{slice_index_or};
ghost use Rattle.std.specs.List.{filter};
ghost use Rattle.semantics.specs.Ids.{OpId as TheId};
ghost use Rattle.semantics.specs.Elements.{Element, Item, is_same};
ghost use Rattle.semantics.specs.Context.{clear};
ghost use Rattle.semantics.specs.DocumentAnswer.{is_any};
ghost use Rattle.operation.specs.cursor.Steps.{hop_of};
ghost use Rattle.tree.specs.Nested.{IsNested};
ghost use Rattle.tree.specs.Nodes.{AreIndexedNodes, IsTree, MoreRoom, SameChildren, SameLinks, context, empty_below_of, links, number};
ghost use Rattle.tree.specs.Nodes.{presence_of};
ghost use Rattle.tree.specs.Shown.{AreEmpty, IsEmptyBelow, SameButFlags, ShownBut};
ghost use Rattle.tree.specs.Writes.{IsCovered, IsStamp, clear_own, covered_by, deps_of, end_of};

use crate::answer::is_present;
use crate::node::{Node, NodeNumber, node_at, node_at_mut};
use crate::show::{empty_below_with, flag_field, show_child};
use crate::stamp::{Covered, Stamp};
use crate::walk::{count_fields, count_items, field_at, item_at, next_field, walk};
use operation::{Hop, VersionVector};

/// Removes from a node every id that the column covers.
fn clear_node(nodes: &mut [Node], at: NodeNumber, covered: &Covered)
    requires tree { IsTree nodes.old }
    requires covered { IsCovered covered.now }
    requires indexed { AreIndexedNodes covered.now.table.now.numbers nodes.old }
    requires inside { at < length nodes.old }
    ensures links { SameLinks nodes.old nodes.new }
    ensures room { MoreRoom nodes.old nodes.new }
    ensures indexed { AreIndexedNodes covered.now.table.now.numbers nodes.new }
    ensures cleared { (e : Element) → number nodes.old e ≡ Some at
        → context nodes.new ≡ clear_own (context nodes.old) e (covered_by covered.now) }
{
    let node = node_at_mut(nodes, at);
    node.presence.clear(covered.column);
    node.register.clear(covered.column);
}

/// Sets whether the list shows the item with this index, if the item was present before it was cleared; else it is hidden already.
fn show_cleared(nodes: &mut [Node], at: NodeNumber, position: usize, was_present: bool)
    requires tree { IsTree nodes.old }
    requires inside { at < length nodes.old }
    requires within { position < length (links nodes.old at).1 }
    ensures same { SameButFlags nodes.old nodes.new }
    ensures room { MoreRoom nodes.old nodes.new }
    ensures shown { (e : Element) (off : Element → Bool) (d : TheId × ℕ) → number nodes.old e ≡ Some at
        → ShownBut nodes.old
        (λ x. (was_present && is_same x (Item e (slice_index_or (links nodes.old at).1 position d).0)) || off x)
        → ShownBut nodes.new off }
    ensures empty { (e : Element) → number nodes.old e ≡ Some at → AreEmpty nodes.old → AreEmpty nodes.new }
{
    if was_present {
        show_child(nodes, at, position);
    }
}

/// The position of the first item that may be present: all before it are empty. Binary search.
fn first_item(nodes: &[Node], at: NodeNumber) -> usize
    requires { at < length nodes.now }
    ensures from { drop result (links nodes.now at).1
        ≡ filter (λ x. nat_le (empty_below_of (slice_get nodes.now at)) x.0.counter) (links nodes.now at).1 }
    ensures within { result ≤ length (links nodes.now at).1 }
{
    let node = node_at(nodes, at);
    if node.empty_below == 0 {
        return 0;
    }
    node.items.first_above(node.empty_below - 1)
}

/// The bound below which all items of a list are empty, once the item with this index, whose node is `child`, was cleared too: lowered to
/// the item's counter if the item is still present.
fn empty_below_after(
    nodes: &[Node],
    at: NodeNumber,
    position: usize,
    child: NodeNumber,
    empty_below: u64,
) -> u64
    requires inside { at < length nodes.now }
    requires within { position < length (links nodes.now at).1 }
    requires child { child < length nodes.now }
    ensures { (d : TheId × ℕ) → result ≡ cond (is_any (presence_of (slice_get nodes.now child)))
        (min empty_below (slice_index_or (links nodes.now at).1 position d).0.counter) empty_below }
{
    let (id, _) = node_at(nodes, at).items.at(position);
    let stands = is_present(nodes, child);
    empty_below_with(empty_below, &id, stands)
}

/// Records that each item of a node's list whose id has a smaller counter is empty.
fn set_empty_below(nodes: &mut [Node], at: NodeNumber, empty_below: u64)
    requires tree { IsTree nodes.old }
    requires inside { at < length nodes.old }
    ensures same { SameButFlags nodes.old nodes.new }
    ensures room { MoreRoom nodes.old nodes.new }
    ensures empty { (e : Element) → number nodes.old e ≡ Some at → IsEmptyBelow nodes.old e empty_below → AreEmpty nodes.old
        → AreEmpty nodes.new }
    ensures shown { (e : Element) (off : Element → Bool) → number nodes.old e ≡ Some at → IsEmptyBelow nodes.old e empty_below
        → ShownBut nodes.old off → ShownBut nodes.new off }
{
    let node = node_at_mut(nodes, at);
    node.empty_below = empty_below;
}

/// Clears a node and all nodes beneath it, and sets what the lists beneath it show. Returns at once from a node that isn't present: nothing
/// beneath it is present either. In a map it visits only the fields whose flags are raised, and lowers the flags of those that it leaves
/// empty. In a list it begins at the first item that was present after the list's last clear, or that was shown since. So when a map or a
/// list is emptied again and again, each time after new fields or items came, a clear costs only the newest ones.
fn clear_below(nodes: &mut [Node], at: NodeNumber, covered: &Covered)
    requires tree { IsTree nodes.old }
    requires covered { IsCovered covered.now }
    requires indexed { AreIndexedNodes covered.now.table.now.numbers nodes.old }
    requires nested { IsNested (context nodes.old) }
    requires empty { AreEmpty nodes.old }
    requires there { (e : Element) × (number nodes.old e ≡ Some at) }
    requires inside { at < length nodes.old }
    ensures children { SameChildren nodes.old nodes.new }
    ensures room { MoreRoom nodes.old nodes.new }
    ensures indexed { AreIndexedNodes covered.now.table.now.numbers nodes.new }
    ensures cleared { (e : Element) → number nodes.old e ≡ Some at
        → context nodes.new ≡ clear (context nodes.old) e (covered_by covered.now) }
    ensures shown { (e : Element) (off : Element → Bool) → number nodes.old e ≡ Some at → ShownBut nodes.old off
        → ShownBut nodes.new (λ x. (is_any (presence_of (slice_get nodes.old at)) && is_same x e) || off x) }
    ensures empty { AreEmpty nodes.new }
{
    if !is_present(nodes, at) {
        return;
    }
    let fields = count_fields(nodes, at);
    let mut position = next_field(nodes, at, 0);
    'fields: while position < fields {
        let child = field_at(nodes, at, position);
        clear_below(nodes, child, covered);
        flag_field(nodes, at, position, child);
        position = next_field(nodes, at, position + 1);
    }
    let items = count_items(nodes, at);
    let from = first_item(nodes, at);
    // If no item is left, all are empty, whatever their counters. The next item that is shown, new or late, lowers the bound to its own
    // counter.
    let mut empty_below = u64::MAX;
    'items: for position in from..items {
        let child = item_at(nodes, at, position);
        let was_present = is_present(nodes, child);
        clear_below(nodes, child, covered);
        show_cleared(nodes, at, position, was_present);
        empty_below = empty_below_after(nodes, at, position, child, empty_below);
    }
    set_empty_below(nodes, at, empty_below);
    clear_node(nodes, at, covered);
}

/// Clears a node and all nodes beneath it of what an operation depends on, and sets what the lists beneath it show. The column is filled
/// only if the node is present: most operations find nothing to clear.
pub fn clear_of(nodes: &mut [Node], at: NodeNumber, stamp: &Stamp, column: &mut VersionVector)
    requires tree { IsTree nodes.old }
    requires stamp { IsStamp stamp.now }
    requires width { length stamp.now.table.now.numbers ≤ length column.old }
    requires indexed { AreIndexedNodes stamp.now.table.now.numbers nodes.old }
    requires nested { IsNested (context nodes.old) }
    requires empty { AreEmpty nodes.old }
    requires there { (e : Element) × (number nodes.old e ≡ Some at) }
    requires inside { at < length nodes.old }
    ensures width { length column.new ≡ length column.old }
    ensures children { SameChildren nodes.old nodes.new }
    ensures room { MoreRoom nodes.old nodes.new }
    ensures indexed { AreIndexedNodes stamp.now.table.now.numbers nodes.new }
    ensures cleared { (e : Element) → number nodes.old e ≡ Some at → context nodes.new ≡ clear (context nodes.old) e (deps_of stamp.now) }
    ensures shown { (e : Element) (off : Element → Bool) → number nodes.old e ≡ Some at → ShownBut nodes.old off
        → ShownBut nodes.new (λ x. (is_any (presence_of (slice_get nodes.old at)) && is_same x e) || off x) }
    ensures empty { AreEmpty nodes.new }
{
    if !is_present(nodes, at) {
        return;
    }
    column.name(stamp.table, stamp.vector.ids());
    let covered = Covered {
        table: stamp.table,
        column,
    };
    clear_below(nodes, at, &covered);
}

/// Clears the element at the end of a path and everything beneath it, if a node was ever made there, and sets what the lists beneath it
/// show.
pub fn clear_at(nodes: &mut [Node], path: &[Hop], stamp: &Stamp, column: &mut VersionVector)
    requires tree { IsTree nodes.old }
    requires stamp { IsStamp stamp.now }
    requires width { length stamp.now.table.now.numbers ≤ length column.old }
    requires indexed { AreIndexedNodes stamp.now.table.now.numbers nodes.old }
    requires nested { IsNested (context nodes.old) }
    requires empty { AreEmpty nodes.old }
    ensures width { length column.new ≡ length column.old }
    ensures children { SameChildren nodes.old nodes.new }
    ensures room { MoreRoom nodes.old nodes.new }
    ensures indexed { AreIndexedNodes stamp.now.table.now.numbers nodes.new }
    ensures cleared { context nodes.new ≡ clear (context nodes.old) (end_of (map hop_of path.now)) (deps_of stamp.now) }
    ensures shown { (off : Element → Bool) → ShownBut nodes.old off
        → ShownBut nodes.new (λ x. is_same x (end_of (map hop_of path.now)) || off x) }
{
    match walk(nodes, path) {
        Some(at) => clear_of(nodes, at, stamp, column),
        None => {}
    }
}
