//! A replica's history and its document, kept together.

ghost use Rattle.std.specs.Prelude.{◌≡◌, ◌≤◌, ◌⊎◌, ◌↔◌, ◌∷◌, [], Ok, None, Some, true, false, IsTrue, IsFalse, IsOk, MatchResult, length};
ghost use Rattle.std.specs.Prelude.{map};
ghost use Rattle.std.specs.Prelude.{reverse, IfOk, OnOk, IfErr, Err};
ghost use Rattle.std.specs.List.{All};
ghost use Rattle.ids.specs.declared.refusal.Refusal.TheVariants.{NoMemory, BadConfig};
ghost use Rattle.ids.specs.Members.{in_order};
ghost use Rattle.ids.specs.Tables.{lacks_room};
ghost use Rattle.ids.specs.Configurations.{are_members};
ghost use Rattle.ids.specs.Vectors.{IsNamed};
ghost use Rattle.semantics.specs.Joining.{check_fault, table_after};
ghost use Rattle.semantics.specs.NamedIds.{vector_of};
ghost use Rattle.semantics.specs.Vectors.{greatest};
ghost use Rattle.semantics.specs.LegalHistory.{greatest_of, has_id};
ghost use Rattle.semantics.specs.Stamped.{MayFollow};
ghost use Rattle.semantics.specs.Faults.{is_ready};
ghost use Rattle.semantics.specs.Context.{doc};
ghost use Rattle.semantics.specs.Entries.{applied, first_entries, lacked_of, missing, stamped_in, stamped_entries};
ghost use Rattle.semantics.specs.DocumentAnswer.{lists_of};
ghost use Rattle.semantics.specs.Elements.{At, Element};
ghost use Rattle.semantics.specs.Glances.{glance_of, shown_by};
ghost use Rattle.semantics.specs.Journals.{entries_from};
ghost use Rattle.semantics.specs.Questions.{answer_at, resolve, Answer, Question as TheQuestion, Refused};
ghost use Rattle.semantics.specs.LegalAnswer.{reading_of, Answered, OfDocument};
ghost use Rattle.semantics.specs.View.{view};
ghost use Rattle.oplog.specs.operation.Alone.{alone_fault_of_op};
ghost use Rattle.oplog.specs.operation.Ops.{entry_of, stamped_of};
ghost use Rattle.oplog.specs.Logs.{history};
ghost use Rattle.tree.specs.Glances.{glance_in};

use crate::answer::{answer, missing, missing_before};
use crate::check::check;
use crate::question::{Question, Reading};
use ids::{MOST_NAMED, NamedVector, OpId, Refusal, ReplicaTable};
use oplog::{Entry, Expr, GrowingVector, Log, Op, Place, Shared};
use std::alloc::{AllocError, Global};
use std::marker::Model;
use tree::{Glance, Tree};

/// A replica's history and its content. Contracts see the members that it was configured with, and the entries, the newest first.
#[derive(Debug, Drop)]
pub struct Document {
    members: ReplicaTable,
    log: Log,
    applied: GrowingVector,
    tree: Tree,
}

impl Model for Document {
    ghost use Rattle.std.specs.Prelude.{min};
    ghost use Rattle.std.specs.Coded.{codes};
    ghost use Rattle.semantics.specs.Codes.{coded_element};
    ghost use Rattle.document.specs.Documents.{Contents, IsGrown};

    ghost Value = { Contents };

    ghost coded = { Prim.hlevel (codes, coded_element) };

    ghost view = { λ d. record {
      members = d.members.numbers;
      entries = d.log.entries;
      room = min (min d.log.room d.applied.room) d.tree.room;
      tree = d.tree;
    } };

    ghost invariant = { λ d. IsGrown d.members.numbers d.log.table d.applied.ids d.log.entries d.tree };
}

impl Document {
    ghost use Rattle.document.specs.Documents.{HasRoomFor, MayFollowEntries, asked_of, said_by};

    /// A document with an empty history, of a replica with these members.
    ///
    /// # Errors
    /// `BadConfig` if the members aren't 1 to 64 distinct numbers above 0, else `NoMemory` if allocation fails.
    pub fn new(alloc: Global, members: &[u32]) -> Result<Document, Refusal>
        ensures new { IfOk result (λ d. (d.members ≡ in_order members.now) × (d.entries ≡ [])) }
        ensures members { OnOk result (IsTrue (are_members members.now)) }
        ensures bad_config { (result ≡ Err BadConfig) ↔ IsFalse (are_members members.now) }
        ensures other { IfErr result (λ why. (why ≡ BadConfig) ⊎ (why ≡ NoMemory)) }
    {
        let members = ReplicaTable::new(alloc, members)?;
        prove!(members.len() <= MOST_NAMED);
        let tree = Tree::new(alloc, &members)?;
        let log = Log::new(alloc, members.clone()?)?;
        Ok(Document {
            members,
            log,
            applied: GrowingVector::new(alloc),
            tree,
        })
    }

    /// The members that the replica was configured with.
    pub fn members(&self) -> &ReplicaTable
        ensures { result.now.numbers ≡ self.now.members }
    {
        &self.members
    }

    /// The replicas: the members, and then each other one in the order of its first operation, at most 256 in all.
    pub fn table(&self) -> &ReplicaTable
        ensures { result.now.numbers ≡ table_after self.now.members self.now.entries }
    {
        self.log.table()
    }

    /// How many entries the history has.
    pub fn len(&self) -> usize
        ensures { result ≡ length self.now.entries }
    {
        self.log.len()
    }

    /// The vector of all that was applied: the greatest counter of each replica.
    pub fn applied(&self) -> &GrowingVector
        ensures all { result.now.ids ≡ vector_of (applied self.now.entries) }
        ensures named { IsNamed result.now.ids }
        ensures greatest { greatest result.now.ids ≡ greatest_of (λ a. true) (applied self.now.entries) }
        ensures few { greatest result.now.ids ≤ length self.now.entries }
    {
        &self.applied
    }

    /// Whether an operation with this id was applied. A binary search.
    pub fn contains(&self, id: OpId) -> bool
        ensures { result ≡ has_id (applied self.now.entries) id }
    {
        self.log.find(id).is_some()
    }

    /// Whether the operation is causally ready: its vector is at most what was applied. Walks both once.
    pub fn ready(&self, op: &Op) -> bool
        ensures { result ≡ is_ready (applied self.now.entries) (stamped_of op.now) }
    {
        op.deps.is_at_most(self.applied.ids())
    }

    /// Tests a causally ready operation against the table and the history. One that passed `check_alone` may follow the history, and has
    /// room in the table, exactly where this returns `Ok`. Allocates nothing. Costs a binary search for each counter of its vector, or one
    /// comparison if that is the vector of all that was applied, and a walk down its place.
    ///
    /// # Errors
    /// In this order: `UnknownReplica` if its replica isn't in the table and the table is full; `BrokenChain` if its vector doesn't name
    /// all that was applied of its own replica; `NamesNothing` if a counter above 0 in its vector belongs to no applied operation;
    /// `NotClosed` if an operation that its vector names has a vector that isn't at most this one; `BadPlace` if an item of its place was
    /// not inserted into that very list.
    pub fn check(&self, op: &Op) -> Result<(), Refusal>
        ensures fault { let fault = check_fault self.now.members (stamped_entries self.now.entries) (stamped_of op.now) in
            MatchResult result (λ _. fault ≡ None) (λ why. fault ≡ Some why) }
        ensures lawful { alone_fault_of_op op.now ≡ None → IsOk result
            ↔ (IsFalse (lacks_room (table_after self.now.members self.now.entries) op.now.id.replica)
            × MayFollow (applied self.now.entries) (stamped_of op.now)) }
    {
        if self.log.table().lacks_room_for(op.id.replica) {
            return Err(Refusal::UnknownReplica);
        }
        check(&self.log, &self.applied, &self.tree, op)
    }

    /// The place that an expression leads to.
    ///
    /// # Errors
    /// `AtHead` for a step from a head, `TooDeep` for one from an element 32 keys deep, `PastEnd` if the list has fewer visible items:
    /// the first step that fails decides. `NoMemory` if allocation fails.
    pub fn resolve(&self, alloc: Global, expression: &Expr) -> Result<Place, Refusal>
        ensures ok { IfOk result (λ p. resolve (lists_of (doc (applied self.now.entries))) expression.now ≡ Ok p) }
        ensures err { IfErr result
            (λ why. (why ≡ NoMemory) ⊎ (resolve (lists_of (doc (applied self.now.entries))) expression.now ≡ Err why)) }
    {
        self.tree.resolve(alloc, expression)
    }

    /// Allocates the memory that committing this operation needs. Changes no content.
    ///
    /// # Errors
    /// `AllocError` if allocation fails.
    pub fn reserve(&mut self, alloc: Global, op: &Op) -> Result<(), AllocError>
        ensures members { self.new.members ≡ self.old.members }
        ensures entries { self.new.entries ≡ self.old.entries }
        ensures room { OnOk result (HasRoomFor self.new (stamped_of op.now)) }
    {
        self.log.reserve_one(alloc)?;
        self.applied.reserve_one()?;
        self.tree.reserve(alloc, op)
    }

    /// Appends an entry for which there is room. Its replica joins the table, unless it is in it. Allocates nothing.
    pub fn commit(&mut self, entry: Entry)
        requires room { HasRoomFor self.old (stamped_in (entry_of entry)) }
        requires lawful { MayFollowEntries self.old.entries (entry_of entry) }
        requires fits { lacks_room (table_after self.old.members self.old.entries) (stamped_in (entry_of entry)).id.replica ≡ false }
        ensures members { self.new.members ≡ self.old.members }
        ensures entries { self.new.entries ≡ entry_of entry ∷ self.old.entries }
    {
        let op: &Op = entry.op();
        let id = op.id;
        prove!(op.deps.ids().len() <= MOST_NAMED);
        self.tree.apply(op);
        self.applied.raise(id);
        self.log.push(entry);
    }

    /// The answer to a question: the history's, which for a question to the document is the view of its operations as a set. Copies what it
    /// returns. Costs a walk along the expression, plus the size of the answer; for items, a look at every item, tombstones included, in
    /// the list's blocks that have a visible one.
    ///
    /// # Errors
    /// The refusal of the expression: those of `resolve`, and `AtHead` if it leads to a head. The history and the view of its operations
    /// refuse alike. Or `NoMemory` if allocation fails.
    pub fn ask(&self, alloc: Global, question: &Question) -> Result<Reading, Refusal>
        ensures answer { IfOk result (λ r. said_by r ≡ reading_of self.now.entries (asked_of question.now)) }
        ensures view { IfOk result
            (λ r. (q : TheQuestion) → asked_of question.now ≡ OfDocument q
            → said_by r ≡ Answered (view (applied self.now.entries) q)) }
        ensures err { IfErr result
            (λ why. (why ≡ NoMemory) ⊎ (reading_of self.now.entries (asked_of question.now) ≡ Answered (Refused why))) }
        ensures view_refuses { IfErr result
            (λ why. (why ≡ NoMemory)
            ⊎ ((q : TheQuestion) → asked_of question.now ≡ OfDocument q
            → view (applied self.now.entries) q ≡ Refused why)) }
    {
        answer(alloc, &self.log, &self.applied, &self.tree, question)
    }

    /// An element at a glance: its content and what is beneath it, to a depth of `depth` below it and at most `elements` elements in all,
    /// of one history. Where something is left out, that is marked. Costs a walk along the expression, plus what is shown.
    ///
    /// # Errors
    /// As `ask`.
    pub fn glance(
        &self,
        alloc: Global,
        expression: &Expr,
        depth: usize,
        elements: usize,
    ) -> Result<Glance, Refusal>
        ensures answer { IfOk result
            (λ g. (e : Element) × (resolve (lists_of (doc (applied self.now.entries))) expression.now ≡ Ok (At e))
            × (glance_in g ≡ glance_of (shown_by (doc (applied self.now.entries))) depth elements e)) }
        ensures err { IfErr result
            (λ why. (why ≡ NoMemory) ⊎ ((f : Element → Answer)
            → answer_at f (resolve (lists_of (doc (applied self.now.entries))) expression.now) ≡ Refused why)) }
    {
        self.tree.glance(alloc, expression, depth, elements)
    }

    /// The operations that the vector doesn't cover, the oldest first.
    ///
    /// # Errors
    /// `AllocError` if allocation fails.
    pub fn missing(
        &self,
        alloc: Global,
        vector: &NamedVector,
    ) -> Result<Vec<Shared<Op>>, AllocError>
        ensures ops { IfOk result
            (λ ops. reverse (map stamped_of ops.items)
            ≡ missing vector.now (stamped_entries self.now.entries)) }
        ensures named { IfOk result (λ ops. All (λ o. IsNamed o.deps) ops.items) }
    {
        missing(alloc, &self.log, vector)
    }

    /// The operations of the entries before a position that the vector doesn't cover, the oldest first. Costs what `missing` costs.
    ///
    /// # Errors
    /// `AllocError` if allocation fails.
    pub fn missing_before(
        &self,
        alloc: Global,
        position: usize,
        vector: &NamedVector,
    ) -> Result<Vec<Shared<Op>>, AllocError>
        ensures ops { IfOk result
            (λ ops. map stamped_of ops.items ≡ lacked_of (first_entries position self.now.entries) vector.now) }
        ensures named { IfOk result (λ ops. All (λ o. IsNamed o.deps) ops.items) }
    {
        missing_before(alloc, &self.log, position, vector)
    }

    /// The entries from a position on, the oldest first: none if the history has no more than that. Shares operations and commands.
    ///
    /// # Errors
    /// `AllocError` if allocation fails.
    pub fn entries_from(&self, alloc: Global, position: usize) -> Result<Vec<Entry>, AllocError>
        ensures { IfOk result (λ entries. map entry_of entries.items ≡ entries_from position self.now.entries) }
    {
        let entries = self.log.entries_from(position);
        let mut shared = Vec::with_capacity(alloc, entries.len())?;
        for entry in entries {
            shared.push(entry.clone()?)?;
        }
        Ok(shared)
    }

    /// The entries, the oldest first. Allocates nothing.
    pub fn into_entries(self) -> Vec<Entry>
        ensures { history result.items ≡ self.entries }
    {
        self.log.into_entries()
    }
}
