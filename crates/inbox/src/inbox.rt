//! The inbox: a causal delivery buffer.

ghost use Rattle.std.specs.Prelude.{◌≡◌, ◌≢◌, ◌⊎◌, List, [], Some, Ok, not, length, option_map, IfNone, IfSome, MatchResult, false};
ghost use Rattle.ids.specs.declared.refusal.Refusal.TheVariants.{NoMemory};
ghost use Rattle.semantics.specs.LegalHistory.{IsAmong};
ghost use Rattle.semantics.specs.Entries.{applied};
ghost use Rattle.semantics.specs.Faults.{is_ready};
ghost use Rattle.semantics.specs.Delivery.{Kept as ToBeKept, NotKept, is_crowded, is_waiting, put_waiting};
ghost use Rattle.semantics.specs.Drain.{first_ready, without_waiting};
ghost use Rattle.document.specs.operation.declared.op.Op.{Op as AnOp};
ghost use Rattle.document.specs.operation.declared.command.Delivered.TheVariants.{Kept};
ghost use Rattle.document.specs.operation.Ops.{stamped_of};
ghost use Rattle.inbox.specs.Inboxes.{answer_to_put, delivered_of, waiting_in, AreNotReady, AreRising, IsLeastReady};

use crate::awaited::{Waiting, op_at};
use crate::smallest::smallest;
use crate::waits::Waits;
use document::{Delivered, Document, Numbers, Op, Shared};
use ids::{OpId, Refusal};
use slab::Slab;
use std::alloc::Global;
use std::marker::Model;

/// The most operations that wait.
const MOST_WAITING: usize = 4096;

/// A set of operations that wait to become causally ready. Contracts see them in ascending order of id, each id once.
#[derive(Debug, Drop)]
pub struct Inbox {
    ops: Slab<Waiting>,
    /// The key in the slab of each operation, by its id.
    keys: Numbers,
    /// What each of them waits for.
    waits: Waits,
}

impl Model for Inbox {
    ghost use Rattle.std.specs.Prelude.{List};
    ghost use Rattle.std.specs.Coded.{codes};
    ghost use Rattle.semantics.specs.Codes.{coded_element};
    ghost use Rattle.document.specs.operation.declared.op.Op.{Op as AnOp};
    ghost use Rattle.inbox.specs.Inboxes.{IsStored, ops_at};

    ghost Value = { List AnOp };

    ghost coded = { Prim.hlevel (codes, coded_element) };

    ghost view = { λ w. ops_at w.ops w.keys.entries };

    ghost invariant = { λ w. IsStored w.ops w.keys.entries w.waits };
}

impl Inbox {
    /// An empty inbox.
    pub fn new(alloc: Global) -> Inbox
        ensures { result ≡ [] }
    {
        Inbox {
            ops: Slab::new(alloc),
            keys: Numbers::new(alloc),
            waits: Waits::new(alloc),
        }
    }

    /// How many operations wait.
    pub fn len(&self) -> usize
        ensures length { result ≡ length self.now }
        ensures rising { AreRising self.now }
    {
        self.keys.len()
    }

    /// Whether an operation with this id waits. Binary search.
    pub fn contains(&self, id: OpId) -> bool
        ensures { result ≡ is_waiting (waiting_in self.now) id }
    {
        self.keys.get(&id).is_some()
    }

    /// The operation with this id, if it waits. Binary search.
    pub fn get(&self, id: OpId) -> Option<&Shared<Op>>
        ensures some { IfSome result (λ o. (o.now.id ≡ id) × IsAmong o.now self.now) }
        ensures none { IfNone result (is_waiting (waiting_in self.now) id ≡ false) }
    {
        let key = self.keys.get(&id)?;
        op_at(&self.ops, key)
    }

    /// Whether one more may wait: 4,096 at most, and one more that is ready.
    pub fn has_room(&self, ready: bool) -> bool
        ensures { result ≡ not (is_crowded ready (length self.now)) }
    {
        let most = if ready {
            MOST_WAITING
        } else {
            MOST_WAITING - 1
        };
        self.len() <= most
    }

    /// Keeps an operation until it is taken, unless one with its id waits already. A binary search, and one insert into a set; shifts the
    /// keys of greater ids, but moves no operation.
    ///
    /// # Errors
    /// `InboxFull` if no more may wait, else `NoMemory` if allocation fails. What waited stays, and the operation is dropped.
    pub fn put(&mut self, op: Shared<Op>, document: &Document) -> Result<Delivered, Refusal>
        ensures answer { let answer = answer_to_put (is_ready (applied document.now.entries) (stamped_of op)) (waiting_in self.old)
            (stamped_of op) in
            MatchResult result (λ d. delivered_of d ≡ answer) (λ why. ((why ≡ NoMemory) × (answer ≡ ToBeKept)) ⊎ (answer ≡ NotKept why)) }
        ensures kept { result ≡ Ok Kept
            → waiting_in self.new ≡ put_waiting (stamped_of op) (waiting_in self.old) }
        ensures among { (o : AnOp) → IsAmong o self.new → (o ≡ op) ⊎ IsAmong o self.old }
        ensures same { result ≢ Ok Kept → self.new ≡ self.old }
    {
        if self.contains(op.id) {
            return Ok(Delivered::Known);
        }
        if !self.has_room(document.ready(&op)) {
            return Err(Refusal::InboxFull);
        }
        self.keys.reserve_one()?;
        self.ops.reserve(1)?;
        let key = self.ops.vacant_key();
        let position = self.waits.enter(&op, key, document.applied().ids())?;
        let id = op.id;
        let key = self.ops.insert_reserved(Waiting::new(op, position));
        self.keys.put(id, key);
        Ok(Delivered::Kept)
    }

    /// Moves on the operations that wait for counters that were applied since the last call, so that `smallest_ready` needn't look at them.
    /// Changes no answer. If a counter is awaited it costs a look at each counter of the applied vector, a search for each that rose, and a
    /// few searches for each operation that moves; over its life an operation moves at most once for each replica that it names. If
    /// allocation fails it ends early, and the next call continues.
    pub fn advance(&mut self, document: &Document)
        ensures same { self.new ≡ self.old }
    {
        self.waits.advance(&mut self.ops, document.applied().ids());
    }

    /// The smallest operation that is causally ready, if there is one. Looks at those that may be ready, up to the first that is, and, if a
    /// counter is awaited, at each counter of the applied vector. For each of these that `advance` hasn't seen yet it also takes a search,
    /// and a look at each operation that waits for it.
    pub fn smallest_ready(&self, document: &Document) -> Option<&Shared<Op>>
        ensures some { IfSome result (λ o. IsLeastReady (applied document.now.entries) self.now o.now) }
        ensures none { IfNone result (AreNotReady (applied document.now.entries) self.now) }
        ensures first { option_map (λ o. stamped_of o.now) result
            ≡ first_ready (applied document.now.entries) (waiting_in self.now) }
    {
        let least = smallest(&self.ops, &self.waits, document)?;
        op_at(&self.ops, least.1)
    }

    /// Takes an operation out. A binary search, and one in a set; shifts the keys of greater ids.
    pub fn take(&mut self, id: OpId) -> Option<Shared<Op>>
        ensures some { IfSome result (λ o. (o.id ≡ id) × IsAmong o self.old) }
        ensures none { IfNone result (is_waiting (waiting_in self.old) id ≡ false) }
        ensures left { waiting_in self.new ≡ without_waiting id (waiting_in self.old) }
        ensures among { (o : AnOp) → IsAmong o self.new → IsAmong o self.old }
    {
        let key = self.keys.remove(&id)?;
        let Some(waiting) = self.ops.try_remove(key) else {
            unreachable!()
        };
        self.waits.forget(&waiting, key);
        Some(waiting.into_op())
    }
}
