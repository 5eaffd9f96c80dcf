//! What the operations of an inbox wait for, and how they move on as counters are applied.

ghost use Rattle.std.specs.Prelude.{◌≡◌, ◌<◌, ◌≤◌, ℕ, List, [], Some, length, true, false, IsTrue, OnErr, OnOk};
ghost use Rattle.std.specs.BTreeSet.{contains};
ghost use Rattle.slab.specs.Slab.{Slab as TheSlab, SameValues, get};
ghost use Rattle.document.specs.operation.declared.op.Op.{Op as AnOp};
ghost use Rattle.semantics.specs.Ids.{OpId as TheId};
ghost use Rattle.semantics.specs.Vectors.{IsCanonical, Vector, at};
ghost use Rattle.inbox.specs.Awaiting.{await_cmp, AreAwaiting, AreUnseen, IsAhead, IsEntered, IsForgotten, SameWaits};
ghost use Rattle.inbox.specs.declared.awaited.Awaited.{Awaited as AnAwaited};

use crate::awaited::{
    Awaited, Waiting, awaited_by, awaited_position, awaits_nothing, first_met, forget, op_at,
    set_position,
};
use document::{GrowingVector, Numbers, Op};
use ids::{OpId, counter_near};
use slab::Slab;
use std::alloc::{AllocError, Global};
use std::collections::BTreeSet;

/// What the operations of an inbox wait for.
#[derive(Debug, Drop)]
pub struct Waits {
    /// For each of these operations but those in `ready`, a counter of its vector that is above what was seen.
    pub awaits: BTreeSet<Awaited>,
    /// The keys in the slab of the others, which may be ready, by their ids.
    pub ready: Numbers,
    /// How much was applied of each replica when the operations that wait for it were last moved on.
    pub seen: GrowingVector,
}

impl Waits {
    /// The waits of an empty inbox.
    pub fn new(alloc: Global) -> Waits
        ensures awaits { (q : AnAwaited) → contains await_cmp result.awaits q ≡ false }
        ensures ready { result.ready.entries ≡ [] }
    {
        Waits {
            awaits: BTreeSet::new(alloc),
            ready: Numbers::new(alloc),
            seen: GrowingVector::new(alloc),
        }
    }

    /// Enters the operation at this key of the slab under a counter of its vector that is neither applied nor seen, or, if there is none,
    /// among those that may be ready. Returns the position of that counter, 0 for none. One insert.
    ///
    /// # Errors
    /// `AllocError` if allocation fails. Nothing has changed then.
    pub fn enter(&mut self, op: &Op, key: usize, applied: &[OpId]) -> Result<usize, AllocError>
        requires { IsCanonical applied.now }
        ensures entered { OnOk result (IsEntered applied.now self.old self.new key op.now) }
        ensures refused { OnErr result (SameWaits self.old self.new) }
    {
        match awaited_position(op, applied, &self.seen) {
            Some(position) => {
                self.enter_at(op, key, position)?;
                Ok(position)
            }
            None => {
                self.enter_ready(op, key)?;
                Ok(0)
            }
        }
    }

    /// Removes what the operation at this key of the slab waits for. A search among those that may be ready, and if it isn't one of them
    /// that of `forget`.
    pub fn forget(&mut self, waiting: &Waiting, key: usize)
        requires there { (s : TheSlab AnOp) × (es : List (TheId × ℕ)) × (get s key ≡ Some waiting.now) × AreAwaiting s es self.old }
        ensures { IsForgotten self.old self.new waiting.now.id key }
    {
        if self.ready.remove(&waiting.op().id).is_none() {
            forget(&mut self.awaits, waiting, key);
        }
    }

    /// Moves on each operation whose awaited counter was applied since the last call: under another counter of its vector that isn't
    /// applied, or among those that may be ready. So over its life an operation moves at most once for each replica that it names. If a
    /// counter is awaited it costs a look at each counter of the applied vector, a search for each that rose, and a few searches for each
    /// operation that moves. If allocation fails it ends early, and the next call continues.
    pub fn advance(&mut self, ops: &mut Slab<Waiting>, applied: &[OpId])
        requires canonical { IsCanonical applied.now }
        requires there { (es : List (TheId × ℕ)) × AreAwaiting ops.old es self.old }
        ensures kept { (es : List (TheId × ℕ)) → AreAwaiting ops.old es self.old → AreAwaiting ops.new es self.new }
        ensures same { SameValues ops.old ops.new }
    {
        if awaits_nothing(&self.awaits) {
            return;
        }
        for position in 0..applied.len() {
            if !self.advance_at(ops, applied, position) {
                return;
            }
        }
    }

    /// Enters an operation under the counter at a position of its vector.
    ///
    /// # Errors
    /// `AllocError` if allocation fails. Nothing has changed then.
    fn enter_at(&mut self, op: &Op, key: usize, position: usize) -> Result<(), AllocError>
        requires { position < length op.now.deps }
        ensures entered { OnOk result ((applied : Vector) → IsAhead applied self.old.seen op.now position
            → IsEntered applied self.old self.new key op.now) }
        ensures refused { OnErr result (SameWaits self.old self.new) }
    {
        let id = op.deps.ids()[position];
        match self.awaits.insert(awaited_by(id, key)) {
            Ok(_) => Ok(()),
            Err(_) => Err(AllocError),
        }
    }

    /// Enters an operation among those that may be ready.
    ///
    /// # Errors
    /// `AllocError` if allocation fails. Nothing has changed then.
    fn enter_ready(&mut self, op: &Op, key: usize) -> Result<(), AllocError>
        ensures entered { OnOk result ((applied : Vector) → IsEntered applied self.old self.new key op.now) }
        ensures refused { OnErr result (SameWaits self.old self.new) }
    {
        self.ready.reserve_one()?;
        self.ready.put(op.id, key);
        Ok(())
    }

    /// Moves on what waits for applied counters of the replica at this position, if its counter rose. Returns false if allocation failed.
    fn advance_at(&mut self, ops: &mut Slab<Waiting>, applied: &[OpId], position: usize) -> bool
        requires canonical { IsCanonical applied.now }
        requires within { position < length applied.now }
        requires there { (es : List (TheId × ℕ)) × AreAwaiting ops.old es self.old }
        ensures kept { (es : List (TheId × ℕ)) → AreAwaiting ops.old es self.old → AreAwaiting ops.new es self.new }
        ensures same { SameValues ops.old ops.new }
    {
        let id = &applied[position];
        if id.counter <= counter_near(self.seen.ids(), position, id.replica) {
            return true;
        }
        if !self.move_met(ops, applied, id) {
            return false;
        }
        self.see(id).is_ok()
    }

    /// Records that the id's replica was seen up to the id's counter, for which nothing waits any more.
    ///
    /// # Errors
    /// `AllocError` if allocation fails. That much then counts as not seen.
    fn see(&mut self, id: &OpId) -> Result<(), AllocError>
        requires counted { 0 < id.now.counter }
        requires passed { (q : AnAwaited) → contains await_cmp self.old.awaits q ≡ true → q.replica ≡ id.now.replica
            → id.now.counter < q.counter }
        ensures awaits { self.new.awaits ≡ self.old.awaits }
        ensures ready { self.new.ready ≡ self.old.ready }
        ensures unseen { AreUnseen self.old → AreUnseen self.new }
    {
        self.seen.reserve_one()?;
        self.seen.raise(*id);
        Ok(())
    }

    /// Moves on what waits for counters of the id's replica up to the id's, which is applied. Returns whether all of that was moved.
    fn move_met(&mut self, ops: &mut Slab<Waiting>, applied: &[OpId], id: &OpId) -> bool
        requires canonical { IsCanonical applied.now }
        requires applied { id.now.counter ≡ at applied.now id.now.replica }
        requires there { (es : List (TheId × ℕ)) × AreAwaiting ops.old es self.old }
        ensures kept { (es : List (TheId × ℕ)) → AreAwaiting ops.old es self.old → AreAwaiting ops.new es self.new }
        ensures same { SameValues ops.old ops.new }
        ensures all { IsTrue result → (q : AnAwaited) → contains await_cmp self.new.awaits q ≡ true → q.replica ≡ id.now.replica
            → id.now.counter < q.counter }
    {
        // Each turn moves one of at most `ops.len()` operations, and the last turn finds none.
        for _ in 0..=ops.len() {
            let Some(awaited) = first_met(&self.awaits, id) else {
                return true;
            };
            if self.move_on(ops, applied, &awaited).is_err() {
                return false;
            }
        }
        false
    }

    /// Moves on an operation that waits for an applied counter.
    ///
    /// # Errors
    /// `AllocError` if allocation fails. The operation then stays where it is.
    fn move_on(
        &mut self,
        ops: &mut Slab<Waiting>,
        applied: &[OpId],
        awaited: &Awaited,
    ) -> Result<(), AllocError>
        requires canonical { IsCanonical applied.now }
        requires held { contains await_cmp self.old.awaits awaited.now ≡ true }
        requires met { awaited.now.counter ≤ at applied.now awaited.now.replica }
        requires there { (es : List (TheId × ℕ)) × AreAwaiting ops.old es self.old }
        ensures kept { (es : List (TheId × ℕ)) → AreAwaiting ops.old es self.old → AreAwaiting ops.new es self.new }
        ensures same { SameValues ops.old ops.new }
    {
        let Some(op) = op_at(ops, awaited.key) else {
            unreachable!()
        };
        let position = self.enter(op, awaited.key, applied)?;
        self.awaits.remove(awaited);
        set_position(ops, awaited.key, position);
        Ok(())
    }
}
