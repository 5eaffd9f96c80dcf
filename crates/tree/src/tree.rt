//! A tree: the nodes, with the table of the replicas whose ids they hold.

ghost use Rattle.std.specs.Prelude.{◌≡◌, ◌<◌, ◌⊎◌, false, IsTrue, IfOk, IfErr, OnOk, Ok, Err};
ghost use Rattle.ids.specs.declared.refusal.Refusal.TheVariants.{NoMemory};
ghost use Rattle.ids.specs.Tables.{joined, lacks_room};
ghost use Rattle.ids.specs.Vectors.{names_only};
ghost use Rattle.semantics.specs.LegalHistory.{IsFormed};
ghost use Rattle.semantics.specs.Operations.{element_of};
ghost use Rattle.semantics.specs.Context.{apply, empty};
ghost use Rattle.semantics.specs.Stamped.{loose_operation};
ghost use Rattle.semantics.specs.Elements.{At, Element};
ghost use Rattle.semantics.specs.Glances.{glance_of, shown_by};
ghost use Rattle.semantics.specs.Questions.{resolve, Answer, ConflictsAre, ItemsAre, KeysAre, Refused, ValuesAre};
ghost use Rattle.semantics.specs.DocumentAnswer.{lists_of, visible_items, visible_names};
ghost use Rattle.operation.specs.Ops.{mutation_of, stamped_of};
ghost use Rattle.tree.specs.Answers.{IsAnswer};
ghost use Rattle.tree.specs.Glances.{glance_in};
ghost use Rattle.tree.specs.Nodes.{tagged, valued};
ghost use Rattle.tree.specs.Trees.{IsPlaced, IsReserved, Planted, document, items_stand};

use crate::answer::{conflicts, items, keys, values};
use crate::apply::apply;
use crate::glance::{Bounds, Glance, look};
use crate::items_inserted::items_stand;
use crate::node::Node;
use crate::reserve::reserve_operation;
use crate::resolve::resolve;
use crate::stamp::Stamp;
use ids::{OpId, Refusal, ReplicaTable};
use operation::{Expr, Key, Op, Place, Scalar, Tag, VersionVector};
use std::alloc::{AllocError, Global};
use std::marker::Model;

/// The content of each element of a document. Contracts see the table and the nodes, and speak of the context that these stand for.
#[derive(Debug, Drop)]
pub struct Tree {
    pub(crate) table: ReplicaTable,
    pub(crate) nodes: Vec<Node>,
    /// The scalar that the next operation writes into a register, copied by `reserve`.
    scalar: Option<Scalar>,
    /// What the last operation that found something to clear depended on, indexed by the table.
    column: VersionVector,
}

impl Model for Tree {
    ghost use Rattle.tree.specs.Trees.{IsPlanted, Planted, planted_of};

    ghost Value = { Planted };

    ghost view = { λ t. planted_of t.table t.nodes.items t.scalar t.column };

    ghost invariant = { λ t. IsPlanted t.table.numbers t.nodes.items t.column };
}

impl Tree {
    /// An empty document, with these replicas.
    ///
    /// # Errors
    /// `AllocError` if allocation fails.
    pub fn new(alloc: Global, table: &ReplicaTable) -> Result<Tree, AllocError>
        ensures table { IfOk result (λ t. t.table ≡ table.now.numbers) }
        ensures empty { IfOk result (λ t. document t ≡ empty) }
    {
        let table = table.clone()?;
        let column = VersionVector::zero(alloc, table.len())?;
        let mut nodes = Vec::new(alloc);
        nodes.push(Node::new(alloc))?;
        Ok(Tree {
            table,
            nodes,
            scalar: None,
            column,
        })
    }

    /// Makes everything that applying this operation needs: nodes, room, clones of keys and of the scalar, and room for one more replica.
    /// The content doesn't change, whatever the result.
    ///
    /// # Errors
    /// `AllocError` if allocation fails.
    pub fn reserve(&mut self, alloc: Global, op: &Op) -> Result<(), AllocError>
        ensures table { self.new.table ≡ self.old.table }
        ensures same { document self.new ≡ document self.old }
        ensures reserved { OnOk result (IsReserved self.new.nodes self.new.scalar (stamped_of op.now)) }
        ensures room { OnOk result (0 < self.new.room) }
    {
        let scalar = reserve_operation(&mut self.nodes, op, alloc)?;
        self.scalar = scalar;
        self.table.reserve_one()?;
        self.column.widen(self.table.len() + 1)
    }

    /// Applies an operation that was reserved. Allocates nothing. Beneath the element of an assign or a delete it visits each node that is
    /// present, and of its children the fields whose flags are raised, and the items from the first one on that was present after the list
    /// was last cleared, or that was written to since. It writes at each element of the path, and then sets the flags of the fields there,
    /// and whether the lists show the items there. A replica that isn't in the table joins it; the replicas that the operation names must
    /// be in it.
    pub fn apply(&mut self, op: &Op)
        requires reserved { IsReserved self.old.nodes self.old.scalar (stamped_of op.now) }
        requires placed { IsPlaced (document self.old) (stamped_of op.now) }
        requires formed { IsFormed (mutation_of op.now.mutation) op.now.place }
        requires fits { lacks_room self.old.table op.now.id.replica ≡ false }
        requires room { 0 < self.old.room }
        requires known { IsTrue (names_only self.old.table op.now.deps) }
        ensures table { self.new.table ≡ joined op.now.id.replica self.old.table }
        ensures applied { document self.new ≡ apply (document self.old) (loose_operation (stamped_of op.now)) }
    {
        let index = self.table.index_or_join(op.id.replica);
        let scalar = self.scalar.take();
        let stamp = Stamp {
            table: &self.table,
            id: op.id,
            index,
            vector: &op.deps,
        };
        apply(&mut self.nodes, op, &stamp, &mut self.column, scalar);
    }

    /// Whether each item on the way to the place was inserted into the list that it is entered from. A binary search for each key, unless
    /// all are of fields.
    pub fn has_items(&self, place: &Place) -> bool
        ensures { result ≡ items_stand (document self.now) (element_of place.now) }
    {
        items_stand(&self.nodes, place.hops())
    }

    /// The place that an expression leads to. Items are looked up in the order of their list: for an index it looks at how many items each
    /// block shows, and at no node; for an id it is a binary search.
    ///
    /// # Errors
    /// `AtHead`, `PastEnd` or `TooDeep` by the rules, or `NoMemory` if allocation fails.
    pub fn resolve(&self, alloc: Global, expression: &Expr) -> Result<Place, Refusal>
        ensures place { IfOk result (λ p. resolve (lists_of (document self.now)) expression.now ≡ Ok p) }
        ensures err { IfErr result (λ why. (why ≡ NoMemory) ⊎ (resolve (lists_of (document self.now)) expression.now ≡ Err why)) }
    {
        resolve(alloc, &self.nodes, expression)
    }

    /// The values in the register at the element that an expression leads to, in ascending order of id. Copies each. The way there
    /// allocates nothing: a binary search for each key, two for an id, and for an index a look at how many items each block of the list
    /// shows.
    ///
    /// # Errors
    /// The refusal of the expression, as from `resolve`, and `AtHead` if it leads to a head; or `NoMemory` if allocation fails.
    pub fn values(&self, alloc: Global, expression: &Expr) -> Result<Vec<(OpId, Scalar)>, Refusal>
        ensures answer { IfOk result
            (λ v. IsAnswer (document self.now) (λ e. ValuesAre ((document self.now).register e)) expression.now
            (ValuesAre (valued v.items))) }
        ensures err { IfErr result
            (λ why. (why ≡ NoMemory) ⊎ ((f : Element → Answer) → IsAnswer (document self.now) f expression.now (Refused why))) }
    {
        values(&self.nodes, expression, alloc)
    }

    /// The presence there, in ascending order of id.
    ///
    /// # Errors
    /// As `values`.
    pub fn conflicts(&self, alloc: Global, expression: &Expr) -> Result<Vec<(OpId, Tag)>, Refusal>
        ensures answer { IfOk result
            (λ v. IsAnswer (document self.now) (λ e. ConflictsAre ((document self.now).presence e)) expression.now
            (ConflictsAre (tagged v.items))) }
        ensures err { IfErr result
            (λ why. (why ≡ NoMemory) ⊎ ((f : Element → Answer) → IsAnswer (document self.now) f expression.now (Refused why))) }
    {
        conflicts(&self.nodes, expression, alloc)
    }

    /// The keys of the visible fields there, in byte order. Looks at the node of each field whose flag is raised, and skips the flags of
    /// the others many at a time.
    ///
    /// # Errors
    /// As `values`.
    pub fn keys(&self, alloc: Global, expression: &Expr) -> Result<Vec<Key>, Refusal>
        ensures answer { IfOk result
            (λ v. IsAnswer (document self.now) (λ e. KeysAre (visible_names (document self.now) e)) expression.now (KeysAre v.items)) }
        ensures err { IfErr result
            (λ why. (why ≡ NoMemory) ⊎ ((f : Element → Answer) → IsAnswer (document self.now) f expression.now (Refused why))) }
    {
        keys(&self.nodes, expression, alloc)
    }

    /// The visible items there, in list order. Looks at each item of the blocks in which one is shown, tombstones included.
    ///
    /// # Errors
    /// As `values`.
    pub fn items(&self, alloc: Global, expression: &Expr) -> Result<Vec<OpId>, Refusal>
        ensures answer { IfOk result
            (λ v. IsAnswer (document self.now) (λ e. ItemsAre (visible_items (document self.now) e)) expression.now (ItemsAre v.items)) }
        ensures err { IfErr result
            (λ why. (why ≡ NoMemory) ⊎ ((f : Element → Answer) → IsAnswer (document self.now) f expression.now (Refused why))) }
    {
        items(&self.nodes, expression, alloc)
    }

    /// A glance at the element there: what is present there and, down to `depth` levels beneath it, what is present beneath, at most
    /// `elements` elements in all. What isn't shown is marked.
    ///
    /// The cost is proportional to what it shows, whose values and keys it copies. Of an element's children it takes at most one more than
    /// may still be shown, and looks at a list's blocks up to the one that has the last of these; the kinds of value there are known
    /// without a scan.
    ///
    /// # Errors
    /// As `values`.
    pub fn glance(
        &self,
        alloc: Global,
        expression: &Expr,
        depth: usize,
        elements: usize,
    ) -> Result<Glance, Refusal>
        ensures answer { IfOk result
            (λ g. (e : Element) × (resolve (lists_of (document self.now)) expression.now ≡ Ok (At e))
            × (glance_in g ≡ glance_of (shown_by (document self.now)) depth elements e)) }
        ensures err { IfErr result
            (λ why. (why ≡ NoMemory) ⊎ ((f : Element → Answer) → IsAnswer (document self.now) f expression.now (Refused why))) }
    {
        look(&self.nodes, expression, Bounds { depth, elements }, alloc)
    }
}
