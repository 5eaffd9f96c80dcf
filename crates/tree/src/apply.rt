//! What each kind of operation does.

ghost use Rattle.std.specs.Prelude.{◌≡◌, ◌≤◌, Option, Some, IsSome, length, option_map};
ghost use Rattle.semantics.specs.Ids.{OpId as TheId};
ghost use Rattle.semantics.specs.Elements.{Element, Item, EmptyMap, is_under};
ghost use Rattle.semantics.specs.LegalHistory.{IsFormed};
ghost use Rattle.semantics.specs.Operations.{Insert, slot_of, target_in};
ghost use Rattle.semantics.specs.Context.{apply};
ghost use Rattle.semantics.specs.Stamped.{loose_operation};
ghost use Rattle.operation.specs.value.Values.{scalar_of};
ghost use Rattle.operation.specs.cursor.Steps.{tag_of};
ghost use Rattle.operation.specs.Ops.{mutation_of, stamped_of};
ghost use Rattle.tree.specs.Nested.{IsNested};
ghost use Rattle.tree.specs.Nodes.{AreIndexedNodes, IsTree, context};
ghost use Rattle.tree.specs.Shown.{AreEmpty, AreShown, ShownBut};
ghost use Rattle.tree.specs.Writes.{IsStamp, assigned, deps_of, linked};
ghost use Rattle.tree.specs.Trees.{CanInsert, IsPlaced, IsReserved};

use crate::clear::clear_at;
use crate::insert::{insert, slot_of};
use crate::node::Node;
use crate::show::show;
use crate::stamp::Stamp;
use crate::write::assign;
use operation::{Mutation, Op, Place, Scalar, Tag, VersionVector};

/// Applies an operation, and then sets what the lists show, their bounds of empty items, and the flags of fields.
pub fn apply(
    nodes: &mut [Node],
    op: &Op,
    stamp: &Stamp,
    column: &mut VersionVector,
    scalar: Option<Scalar>,
)
    requires stamp { IsStamp stamp.now }
    requires width { length stamp.now.table.now.numbers ≤ length column.old }
    requires id { stamp.now.id ≡ op.now.id }
    requires vector { stamp.now.vector.now ≡ op.now.deps }
    requires tree { IsTree nodes.old }
    requires indexed { AreIndexedNodes stamp.now.table.now.numbers nodes.old }
    requires nested { IsNested (context nodes.old) }
    requires shown { AreShown nodes.old }
    requires empty { AreEmpty nodes.old }
    requires reserved { IsReserved nodes.old scalar
        (stamped_of op.now) }
    requires placed { IsPlaced (context nodes.old) (stamped_of op.now) }
    requires formed { IsFormed (mutation_of op.now.mutation) op.now.place }
    ensures width { length column.new ≡ length column.old }
    ensures tree { IsTree nodes.new }
    ensures nested { IsNested (context nodes.new) }
    ensures indexed { AreIndexedNodes stamp.now.table.now.numbers nodes.new }
    ensures shown { AreShown nodes.new }
    ensures empty { AreEmpty nodes.new }
    ensures applied { context nodes.new ≡ apply (context nodes.old) (loose_operation (stamped_of op.now)) }
{
    run(nodes, op, stamp, column, scalar);
    show(nodes, op);
}

/// Clears and writes what an operation's mutation says. Afterwards what lists show, their bounds of empty items, and the flags of fields
/// may be wrong on the way to its target, and nowhere else.
fn run(
    nodes: &mut [Node],
    op: &Op,
    stamp: &Stamp,
    column: &mut VersionVector,
    scalar: Option<Scalar>,
)
    requires stamp { IsStamp stamp.now }
    requires width { length stamp.now.table.now.numbers ≤ length column.old }
    requires id { stamp.now.id ≡ op.now.id }
    requires vector { stamp.now.vector.now ≡ op.now.deps }
    requires tree { IsTree nodes.old }
    requires indexed { AreIndexedNodes stamp.now.table.now.numbers nodes.old }
    requires nested { IsNested (context nodes.old) }
    requires empty { AreEmpty nodes.old }
    requires reserved { IsReserved nodes.old scalar
        (stamped_of op.now) }
    requires placed { IsPlaced (context nodes.old) (stamped_of op.now) }
    requires formed { IsFormed (mutation_of op.now.mutation) op.now.place }
    ensures width { length column.new ≡ length column.old }
    ensures tree { IsTree nodes.new }
    ensures indexed { AreIndexedNodes stamp.now.table.now.numbers nodes.new }
    ensures shown { AreShown nodes.old
        → ShownBut nodes.new
        (is_under (target_in (slot_of (mutation_of op.now.mutation) op.now.place) op.now.id op.now.place)) }
    ensures applied { context nodes.new ≡ apply (context nodes.old) (loose_operation (stamped_of op.now)) }
{
    match &op.mutation {
        Mutation::Assign(value) => assign(
            nodes,
            op.place.hops(),
            stamp,
            column,
            Tag::of(value),
            scalar,
        ),
        Mutation::Insert(value) => insert_at(
            nodes,
            &op.place,
            stamp,
            column,
            Tag::of(value),
            scalar,
        ),
        Mutation::Delete => clear_at(nodes, op.place.hops(), stamp, column),
    }
}

/// Inserts at a head or after an item.
fn insert_at(
    nodes: &mut [Node],
    place: &Place,
    stamp: &Stamp,
    column: &mut VersionVector,
    tag: Tag,
    scalar: Option<Scalar>,
)
    requires stamp { IsStamp stamp.now }
    requires width { length stamp.now.table.now.numbers ≤ length column.old }
    requires tree { IsTree nodes.old }
    requires indexed { AreIndexedNodes stamp.now.table.now.numbers nodes.old }
    requires nested { IsNested (context nodes.old) }
    requires empty { AreEmpty nodes.old }
    requires slot { IsSome (slot_of (Insert EmptyMap) place.now) }
    requires fits { (l : Element) (p : Option TheId) → slot_of (Insert EmptyMap) place.now ≡ Some (l, p)
        → CanInsert nodes.old l p stamp.now.id scalar }
    ensures width { length column.new ≡ length column.old }
    ensures tree { IsTree nodes.new }
    ensures indexed { AreIndexedNodes stamp.now.table.now.numbers nodes.new }
    ensures shown { (l : Element) (p : Option TheId) → slot_of (Insert EmptyMap) place.now ≡ Some (l, p) → AreShown nodes.old
        → ShownBut nodes.new (is_under (Item l stamp.now.id)) }
    ensures inserted { (l : Element) (p : Option TheId) → slot_of (Insert EmptyMap) place.now ≡ Some (l, p)
        → context nodes.new
        ≡ assigned (linked (context nodes.old) l p stamp.now.id) stamp.now.id (deps_of stamp.now) (Item l stamp.now.id) (tag_of tag)
        (option_map scalar_of scalar) }
{
    let Some(slot) = slot_of(place) else {
        unreachable!()
    };
    insert(nodes, &slot, stamp, column, tag, scalar);
}
