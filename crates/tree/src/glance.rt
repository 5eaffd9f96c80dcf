//! A glance at a part of a document: an element and what is present beneath it, as rows.

ghost use Rattle.std.specs.Prelude.{◌≡◌, ◌<◌, ◌≤◌, ◌+◌, ◌-◌, ◌⊎◌, ◌++◌, ◌∷◌, [], Ok, Some, IfOk, IfErr, IfSome, OnOk, length, map};
ghost use Rattle.std.specs.Prelude.{option_map, take};
ghost use Rattle.ids.specs.declared.refusal.Refusal.TheVariants.{NoMemory};
ghost use Rattle.semantics.specs.Elements.{At, Element};
ghost use Rattle.semantics.specs.DocumentAnswer.{is_any, lists_of, visible_items, visible_names};
ghost use Rattle.semantics.specs.Questions.{Answer, Refused, resolve};
ghost use Rattle.semantics.specs.Glances.{glance_of, hops_below, kinds_of, row_at, rows_of, shown_by};
ghost use Rattle.semantics.specs.Paths.{FieldHop, ItemHop};
ghost use Rattle.operation.specs.cursor.Steps.{hop_of};
ghost use Rattle.tree.specs.Nodes.{IsTree, context, number};
ghost use Rattle.tree.specs.Answers.{IsAnswer};
ghost use Rattle.tree.specs.Glances.{IsFilled, glance_in, row_of, tags_in};
ghost use Rattle.tree.specs.Shown.{AreEmpty, AreShown};

use crate::answer::{first_items, first_keys, is_field, values_of, visible_item};
use crate::find::find;
use crate::node::{Node, NodeNumber, node_at};
use crate::walk::{count_fields, field_at, next_field, next_of};
use columns::Kinds;
use ids::{OpId, Refusal};
use operation::{Expr, Hop, Key, Scalar};
use std::alloc::{AllocError, Global};

/// One element of a glance.
#[derive(Debug, Drop)]
pub struct Row {
    /// How far it is beneath the element that was asked about.
    pub depth: usize,
    /// The hop to it from its parent, `None` for the element that was asked about.
    pub entered: Option<Hop>,
    pub kinds: Kinds,
    /// The values in its register, in ascending order of id.
    pub values: Vec<(OpId, Scalar)>,
    /// Whether something present beneath it isn't shown, because it is too deep.
    pub is_cut: bool,
}

/// An element and what is present beneath it, in preorder: fields by their keys before items in list order.
#[derive(Debug, Drop)]
pub struct Glance {
    pub rows: Vec<Row>,
    /// Whether there are more rows. If so, the last row and the ones above it may lack more of what is present beneath them.
    pub is_cut: bool,
}

/// How much a glance shows.
#[derive(Clone, Copy, Debug)]
pub struct Bounds {
    /// How far beneath the element that is asked about.
    pub depth: usize,
    /// How many elements at most.
    pub elements: usize,
}

/// A glance at the element that an expression leads to. Copies what it shows.
pub fn look(
    nodes: &[Node],
    expression: &Expr,
    bounds: Bounds,
    alloc: Global,
) -> Result<Glance, Refusal>
    requires tree { IsTree nodes.now }
    requires shown { AreShown nodes.now }
    requires empty { AreEmpty nodes.now }
    ensures answer { IfOk result
        (λ g. (e : Element) × (resolve (lists_of (context nodes.now)) expression.now ≡ Ok (At e))
        × (glance_in g ≡ glance_of (shown_by (context nodes.now)) bounds.depth bounds.elements e)) }
    ensures err { IfErr result
        (λ why. (why ≡ NoMemory) ⊎ ((f : Element → Answer) → IsAnswer (context nodes.now) f expression.now (Refused why))) }
{
    let node = find(nodes, expression)?;
    let mut rows = Vec::new(alloc);
    let is_cut = push_rows(nodes, node, None, 0, bounds, &mut rows, alloc)?;
    Ok(Glance { rows, is_cut })
}

/// Appends the rows of a node, up to the bound, and returns whether there are more.
fn push_rows(
    nodes: &[Node],
    node: Option<NodeNumber>,
    entered: Option<Hop>,
    depth: usize,
    bounds: Bounds,
    rows: &mut Vec<Row>,
    alloc: Global,
) -> Result<bool, AllocError>
    requires tree { IsTree nodes.now }
    requires shown { AreShown nodes.now }
    requires empty { AreEmpty nodes.now }
    requires inside { IfSome node (λ at. at < length nodes.now) }
    requires deep { depth ≤ bounds.depth }
    requires room { length rows.old.items ≤ bounds.elements }
    ensures room { OnOk result (length rows.new.items ≤ bounds.elements) }
    ensures filled { IfOk result (λ more. (e : Element) → number nodes.now e ≡ node →
        IsFilled bounds.elements (map row_of rows.old.items)
        (rows_of (shown_by (context nodes.now)) (bounds.depth - depth) depth (option_map hop_of entered) e)
        (map row_of rows.new.items) more) }
{
    if rows.len() == bounds.elements {
        return Ok(true);
    }
    let (here, row) = (node, node);
    if depth == bounds.depth {
        push_row(
            nodes,
            row,
            entered,
            depth,
            stands_below(nodes, here),
            rows,
            alloc,
        )?;
        return Ok(false);
    }
    // One hop more than there is room for beneath this row: each hop leads to a row, so the last one then shows that there are more.
    let count = bounds.elements - rows.len();
    let hops = first_hops(nodes, here, count, alloc)?;
    push_row(nodes, row, entered, depth, false, rows, alloc)?;
    for hop in hops {
        let parent = node;
        let child = next_of(nodes, parent, &hop);
        let is_full = push_rows(nodes, child, Some(hop), depth + 1, bounds, rows, alloc)?;
        if is_full {
            return Ok(true);
        }
    }
    Ok(false)
}

/// Appends a node's own row.
fn push_row(
    nodes: &[Node],
    node: Option<NodeNumber>,
    entered: Option<Hop>,
    depth: usize,
    is_cut: bool,
    rows: &mut Vec<Row>,
    alloc: Global,
) -> Result<(), AllocError>
    requires tree { IsTree nodes.now }
    requires inside { IfSome node (λ at. at < length nodes.now) }
    ensures count { OnOk result (length rows.new.items ≡ length rows.old.items + 1) }
    ensures row { OnOk result ((e : Element) → number nodes.now e ≡ node → map row_of rows.new.items
        ≡ map row_of rows.old.items ++ row_at (shown_by (context nodes.now)) depth (option_map hop_of entered) e is_cut ∷ []) }
{
    let here = node;
    let values = values_of(nodes, here, alloc)?;
    let kinds = kinds_at(nodes, node);
    rows.push(Row {
        depth,
        entered,
        kinds,
        values,
        is_cut,
    })?;
    Ok(())
}

/// Whether anything is present beneath a node. Looks at the fields whose flags are raised until one is visible.
fn stands_below(nodes: &[Node], node: Option<NodeNumber>) -> bool
    requires tree { IsTree nodes.now }
    requires shown { AreShown nodes.now }
    requires empty { AreEmpty nodes.now }
    requires inside { IfSome node (λ at. at < length nodes.now) }
    ensures { (e : Element) → number nodes.now e ≡ node → result ≡ is_any (hops_below (shown_by (context nodes.now)) e) }
{
    match node {
        Some(at) => has_field(nodes, at) || has_item(nodes, at),
        None => false,
    }
}

/// Whether any field of a node is visible.
fn has_field(nodes: &[Node], at: NodeNumber) -> bool
    requires tree { IsTree nodes.now }
    requires empty { AreEmpty nodes.now }
    requires inside { at < length nodes.now }
    ensures { (e : Element) → number nodes.now e ≡ Some at → result ≡ is_any (visible_names (context nodes.now) e) }
{
    let fields = count_fields(nodes, at);
    let mut position = next_field(nodes, at, 0);
    while position < fields {
        if is_field(nodes, field_at(nodes, at, position)) {
            return true;
        }
        position = next_field(nodes, at, position + 1);
    }
    false
}

/// Whether any item of a node is visible.
fn has_item(nodes: &[Node], at: NodeNumber) -> bool
    requires tree { IsTree nodes.now }
    requires shown { AreShown nodes.now }
    requires inside { at < length nodes.now }
    ensures { (e : Element) → number nodes.now e ≡ Some at → result ≡ is_any (visible_items (context nodes.now) e) }
{
    visible_item(nodes, at, 0).is_some()
}

/// The first hops, at most `count`, from a node to its visible children: to its fields, and then to its items.
fn first_hops(
    nodes: &[Node],
    node: Option<NodeNumber>,
    count: usize,
    alloc: Global,
) -> Result<Vec<Hop>, AllocError>
    requires tree { IsTree nodes.now }
    requires shown { AreShown nodes.now }
    requires empty { AreEmpty nodes.now }
    requires inside { IfSome node (λ at. at < length nodes.now) }
    ensures { IfOk result (λ v. (e : Element) → number nodes.now e ≡ node →
        map hop_of v.items ≡ take count (hops_below (shown_by (context nodes.now)) e)) }
{
    let here = node;
    let mut hops = Vec::new(alloc);
    push_fields(&mut hops, first_keys(nodes, here, count, alloc)?)?;
    let left = count - hops.len();
    push_items(&mut hops, first_items(nodes, node, left, alloc)?)?;
    Ok(hops)
}

/// Appends the hops to these fields.
fn push_fields(hops: &mut Vec<Hop>, keys: Vec<Key>) -> Result<(), AllocError>
    ensures { OnOk result (map hop_of hops.new.items ≡ map hop_of hops.old.items ++ map FieldHop keys.items) }
{
    for key in keys {
        hops.push(Hop::Field(key))?;
    }
    Ok(())
}

/// Appends the hops to these items.
fn push_items(hops: &mut Vec<Hop>, items: Vec<OpId>) -> Result<(), AllocError>
    ensures { OnOk result (map hop_of hops.new.items ≡ map hop_of hops.old.items ++ map ItemHop items.items) }
{
    for id in items {
        hops.push(Hop::Item(id))?;
    }
    Ok(())
}

/// The kinds of value that are present at a node, none if there is no node. Looks at one id at most.
fn kinds_at(nodes: &[Node], node: Option<NodeNumber>) -> Kinds
    requires { IfSome node (λ at. at < length nodes.now) }
    ensures { (e : Element) → number nodes.now e ≡ node → tags_in result ≡ kinds_of ((context nodes.now).presence e) }
{
    match node {
        Some(at) => node_at(nodes, at).presence.kinds(),
        None => Kinds::NONE,
    }
}
