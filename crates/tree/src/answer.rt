//! The content of an element, as questions ask for it.

ghost use Rattle.std.specs.Prelude.{◌≡◌, ◌⊎◌, ◌<◌, ◌≤◌, ◌&&◌, Some, IfOk, IfErr, length, slice_get, take, IfSome};
ghost use Rattle.ids.specs.declared.refusal.Refusal.TheVariants.{NoMemory};
ghost use Rattle.semantics.specs.Elements.{Element};
ghost use Rattle.semantics.specs.DocumentAnswer.{is_any, visible_items, visible_names};
ghost use Rattle.semantics.specs.Questions.{Answer, ConflictsAre, ItemsAre, KeysAre, Refused, ValuesAre};
ghost use Rattle.tree.specs.Nodes.{IsTree, context, is_written, number, presence_of, tagged, valued};
ghost use Rattle.tree.specs.Answers.{IsAnswer};
ghost use Rattle.tree.specs.Shown.{AreEmpty, AreShown};

use crate::find::find;
use crate::node::{Node, NodeNumber, node_at};
use crate::walk::{count_fields, keyed_field_at, next_field};
use columns::{Presence, Register};
use ids::{OpId, Refusal};
use operation::{Expr, Key, Scalar, Tag};
use std::alloc::{AllocError, Global};

/// The register's values at the element that an expression leads to, in ascending order of id. Copies each.
pub fn values(
    nodes: &[Node],
    expression: &Expr,
    alloc: Global,
) -> Result<Vec<(OpId, Scalar)>, Refusal>
    requires tree { IsTree nodes.now }
    requires shown { AreShown nodes.now }
    ensures answer { IfOk result
        (λ v. IsAnswer (context nodes.now) (λ e. ValuesAre ((context nodes.now).register e)) expression.now (ValuesAre (valued v.items))) }
    ensures err { IfErr result
        (λ why. (why ≡ NoMemory) ⊎ ((f : Element → Answer) → IsAnswer (context nodes.now) f expression.now (Refused why))) }
{
    let node = find(nodes, expression)?;
    Ok(values_of(nodes, node, alloc)?)
}

/// The values at a node, none if there is no node.
pub fn values_of(
    nodes: &[Node],
    node: Option<NodeNumber>,
    alloc: Global,
) -> Result<Vec<(OpId, Scalar)>, AllocError>
    requires { IfSome node (λ at. at < length nodes.now) }
    ensures { IfOk result (λ v. (e : Element) → number nodes.now e ≡ node → valued v.items ≡ (context nodes.now).register e) }
{
    match node {
        Some(at) => copy_values(&node_at(nodes, at).register, alloc),
        None => Ok(Vec::new(alloc)),
    }
}

/// The presence at the element that an expression leads to, in ascending order of id.
pub fn conflicts(
    nodes: &[Node],
    expression: &Expr,
    alloc: Global,
) -> Result<Vec<(OpId, Tag)>, Refusal>
    requires tree { IsTree nodes.now }
    requires shown { AreShown nodes.now }
    ensures answer { IfOk result
        (λ v. IsAnswer (context nodes.now) (λ e. ConflictsAre ((context nodes.now).presence e)) expression.now
        (ConflictsAre (tagged v.items))) }
    ensures err { IfErr result
        (λ why. (why ≡ NoMemory) ⊎ ((f : Element → Answer) → IsAnswer (context nodes.now) f expression.now (Refused why))) }
{
    let node = find(nodes, expression)?;
    Ok(conflicts_of(nodes, node, alloc)?)
}

/// The presence of a node, empty if there is no node.
pub fn conflicts_of(
    nodes: &[Node],
    node: Option<NodeNumber>,
    alloc: Global,
) -> Result<Vec<(OpId, Tag)>, AllocError>
    requires { IfSome node (λ at. at < length nodes.now) }
    ensures { IfOk result (λ v. (e : Element) → number nodes.now e ≡ node → tagged v.items ≡ (context nodes.now).presence e) }
{
    match node {
        Some(at) => node_at(nodes, at).presence.copy(alloc),
        None => Ok(Vec::new(alloc)),
    }
}

/// The keys of the fields that are present, of the element that an expression leads to, in byte order.
pub fn keys(nodes: &[Node], expression: &Expr, alloc: Global) -> Result<Vec<Key>, Refusal>
    requires tree { IsTree nodes.now }
    requires empty { AreEmpty nodes.now }
    requires shown { AreShown nodes.now }
    ensures answer { IfOk result
        (λ v. IsAnswer (context nodes.now) (λ e. KeysAre (visible_names (context nodes.now) e)) expression.now (KeysAre v.items)) }
    ensures err { IfErr result
        (λ why. (why ≡ NoMemory) ⊎ ((f : Element → Answer) → IsAnswer (context nodes.now) f expression.now (Refused why))) }
{
    let node = find(nodes, expression)?;
    Ok(keys_of(nodes, node, alloc)?)
}

/// The keys at a node, none if there is no node.
pub fn keys_of(
    nodes: &[Node],
    node: Option<NodeNumber>,
    alloc: Global,
) -> Result<Vec<Key>, AllocError>
    requires tree { IsTree nodes.now }
    requires empty { AreEmpty nodes.now }
    requires inside { IfSome node (λ at. at < length nodes.now) }
    ensures { IfOk result (λ v. (e : Element) → number nodes.now e ≡ node → v.items ≡ visible_names (context nodes.now) e) }
{
    match node {
        Some(at) => present_keys(nodes, at, count_fields(nodes, at), alloc),
        None => Ok(Vec::new(alloc)),
    }
}

/// The first of the keys at a node, at most `count`. Looks at the fields up to the last of them.
pub fn first_keys(
    nodes: &[Node],
    node: Option<NodeNumber>,
    count: usize,
    alloc: Global,
) -> Result<Vec<Key>, AllocError>
    requires tree { IsTree nodes.now }
    requires empty { AreEmpty nodes.now }
    requires inside { IfSome node (λ at. at < length nodes.now) }
    ensures few { IfOk result (λ v. length v.items ≤ count) }
    ensures first { IfOk result
        (λ v. (e : Element) → number nodes.now e ≡ node → v.items ≡ take count (visible_names (context nodes.now) e)) }
{
    match node {
        Some(at) => present_keys(nodes, at, count, alloc),
        None => Ok(Vec::new(alloc)),
    }
}

/// The items that are present, of the list at the element that an expression leads to, in list order.
pub fn items(nodes: &[Node], expression: &Expr, alloc: Global) -> Result<Vec<OpId>, Refusal>
    requires tree { IsTree nodes.now }
    requires shown { AreShown nodes.now }
    ensures answer { IfOk result
        (λ v. IsAnswer (context nodes.now) (λ e. ItemsAre (visible_items (context nodes.now) e)) expression.now (ItemsAre v.items)) }
    ensures err { IfErr result
        (λ why. (why ≡ NoMemory) ⊎ ((f : Element → Answer) → IsAnswer (context nodes.now) f expression.now (Refused why))) }
{
    let node = find(nodes, expression)?;
    Ok(items_of(nodes, node, alloc)?)
}

/// The items at a node, none if there is no node.
pub fn items_of(
    nodes: &[Node],
    node: Option<NodeNumber>,
    alloc: Global,
) -> Result<Vec<OpId>, AllocError>
    requires tree { IsTree nodes.now }
    requires shown { AreShown nodes.now }
    requires inside { IfSome node (λ at. at < length nodes.now) }
    ensures { IfOk result (λ v. (e : Element) → number nodes.now e ≡ node → v.items ≡ visible_items (context nodes.now) e) }
{
    match node {
        Some(at) => present_items(nodes, at, alloc),
        None => Ok(Vec::new(alloc)),
    }
}

/// The first of the items at a node, at most `count`. Asks the list's order, which looks at the blocks up to the one that has the last of
/// them, and at no node.
pub fn first_items(
    nodes: &[Node],
    node: Option<NodeNumber>,
    count: usize,
    alloc: Global,
) -> Result<Vec<OpId>, AllocError>
    requires tree { IsTree nodes.now }
    requires shown { AreShown nodes.now }
    requires inside { IfSome node (λ at. at < length nodes.now) }
    ensures { IfOk result (λ v. (e : Element) → number nodes.now e ≡ node → v.items ≡ take count (visible_items (context nodes.now) e)) }
{
    match node {
        Some(at) => node_at(nodes, at).order.first_visible(count, alloc),
        None => Ok(Vec::new(alloc)),
    }
}

/// A copy of a register's entries.
fn copy_values(register: &Register, alloc: Global) -> Result<Vec<(OpId, Scalar)>, AllocError>
    ensures { IfOk result (λ v. v.items ≡ register.now.entries) }
{
    let mut values = Vec::with_capacity(alloc, register.len())?;
    for position in 0..register.len() {
        let (id, scalar) = register.at(position);
        values.push((id, scalar.clone()?))?;
    }
    Ok(values)
}

/// The first keys, at most `count`, of the map's fields that are present, in byte order. Looks at the node of each field whose flag is
/// raised, up to the last of them, and copies the keys that it returns.
fn present_keys(
    nodes: &[Node],
    at: NodeNumber,
    count: usize,
    alloc: Global,
) -> Result<Vec<Key>, AllocError>
    requires tree { IsTree nodes.now }
    requires empty { AreEmpty nodes.now }
    requires inside { at < length nodes.now }
    ensures few { IfOk result (λ v. length v.items ≤ count) }
    ensures first { IfOk result
        (λ v. (e : Element) → number nodes.now e ≡ Some at → v.items ≡ take count (visible_names (context nodes.now) e)) }
{
    let mut keys = Vec::new(alloc);
    let fields = count_fields(nodes, at);
    let mut position = next_field(nodes, at, 0);
    while position < fields {
        if keys.len() == count {
            return Ok(keys);
        }
        let (key, field) = keyed_field_at(nodes, at, position);
        if is_field(nodes, field) {
            let key = key.clone()?;
            keys.push(key)?;
        }
        position = next_field(nodes, at, position + 1);
    }
    Ok(keys)
}

/// Whether a field has a node, at which something is present.
pub fn is_field(nodes: &[Node], at: NodeNumber) -> bool
    requires { at < length nodes.now }
    ensures { result ≡ is_written (slice_get nodes.now at) && is_any (presence_of (slice_get nodes.now at)) }
{
    is_present(nodes, at) && node_at(nodes, at).is_written
}

/// Whether something is present at a node.
pub fn is_present(nodes: &[Node], at: NodeNumber) -> bool
    requires { at < length nodes.now }
    ensures { result ≡ is_any (presence_of (slice_get nodes.now at)) }
{
    node_at(nodes, at).presence.len() > 0
}

/// The items of the list that are present, in list order. Asks the list's order, which looks at every item, tombstones included, in the
/// blocks that have a visible one, and at no node.
fn present_items(nodes: &[Node], at: NodeNumber, alloc: Global) -> Result<Vec<OpId>, AllocError>
    requires tree { IsTree nodes.now }
    requires inside { at < length nodes.now }
    requires shown { AreShown nodes.now }
    ensures { IfOk result (λ v. (e : Element) → number nodes.now e ≡ Some at → v.items ≡ visible_items (context nodes.now) e) }
{
    node_at(nodes, at).order.visible(alloc)
}

/// The item with this index among the present items of the list. Asks the list's order, which looks at how many
/// items each of its blocks shows, and at no node.
pub fn visible_item(nodes: &[Node], at: NodeNumber, index: u64) -> Option<OpId>
    requires tree { IsTree nodes.now }
    requires inside { at < length nodes.now }
    requires shown { AreShown nodes.now }
    ensures { (e : Element) → number nodes.now e ≡ Some at → result ≡ slice_get (visible_items (context nodes.now) e) index }
{
    node_at(nodes, at).order.nth_visible(index as usize)
}
