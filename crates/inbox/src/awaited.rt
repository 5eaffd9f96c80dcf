//! Waiting operations, and the counters that they wait for.

ghost use Rattle.std.specs.Prelude.{◌≡◌, ◌≢◌, ◌<◌, ◌≤◌, length, true, false, IsTrue, IsFalse, IfSome, IfNone, Some, option_copied};
ghost use Rattle.std.specs.Prelude.{slice_get};
ghost use Rattle.std.specs.BTreeSet.{contains};
ghost use Rattle.slab.specs.Slab.{SameValues, get};
ghost use Rattle.semantics.specs.Ids.{OpId as TheId};
ghost use Rattle.semantics.specs.Vectors.{IsCanonical};
ghost use Rattle.inbox.specs.Awaiting.{await_cmp, awaited_by, AreSingle, IsAhead, IsAwaiting};
ghost use Rattle.inbox.specs.declared.awaited.Awaited.{Awaited as AnAwaited};

use document::{GrowingVector, Op, Shared};
use ids::{OpId, ReplicaId, counter_near};
use slab::Slab;
use std::alloc::Global;
use std::collections::BTreeSet;
use std::marker::Model;

/// An operation that waits. Contracts see the operation.
#[derive(Debug, Drop)]
pub struct Waiting {
    op: Shared<Op>,
    /// The position in its vector of the counter that it waits for. Only a hint: `forget` tries it first.
    position: usize,
}

impl Model for Waiting {
    ghost use Rattle.std.specs.Coded.{codes};
    ghost use Rattle.semantics.specs.Codes.{coded_element};
    ghost use Rattle.document.specs.operation.declared.op.Op.{Op as AnOp};

    ghost Value = { AnOp };

    ghost coded = { Prim.hlevel (codes, coded_element) };

    ghost view = { λ w. w.op };
}

impl Waiting {
    /// An operation that waits for the counter at this position of its vector.
    pub fn new(op: Shared<Op>, position: usize) -> Waiting
        ensures { result ≡ op }
    {
        Waiting { op, position }
    }

    /// The operation.
    pub fn op(&self) -> &Shared<Op>
        ensures { result.now ≡ self.now }
    {
        &self.op
    }

    /// The operation.
    pub fn into_op(self) -> Shared<Op>
        ensures { result ≡ self }
    {
        self.op
    }

    /// Records that it waits for the counter at another position.
    fn set_position(&mut self, position: usize)
        ensures { self.new ≡ self.old }
    {
        self.position = position;
    }
}

/// The operation at a key of the slab, if there is one.
pub fn op_at(ops: &Slab<Waiting>, key: usize) -> Option<&Shared<Op>>
    ensures { option_copied result ≡ get ops.now key }
{
    ops.get(key).map(Waiting::op)
}

/// Records that the operation at a key of the slab waits for the counter at another position of its vector.
pub fn set_position(ops: &mut Slab<Waiting>, key: usize, position: usize)
    ensures { SameValues ops.old ops.new }
{
    if let Some(waiting) = ops.get_mut(key) {
        waiting.set_position(position);
    }
}

/// A counter of an operation's vector: until that much is applied of the replica, the operation isn't ready. Ordered by replica, then by
/// counter, then by key.
#[derive(Clone, Copy, Debug, PartialEq, Eq, PartialOrd, Ord)]
pub struct Awaited {
    pub replica: ReplicaId,
    pub counter: u64,
    /// The operation's key in the slab.
    pub key: usize,
}

/// The counter that an id names, as what the operation at this key waits for.
pub fn awaited_by(id: OpId, key: usize) -> Awaited
    ensures { result ≡ awaited_by id key }
{
    Awaited {
        replica: id.replica,
        counter: id.counter,
        key,
    }
}

/// Returns the position of a counter of the operation's vector that is neither applied nor seen, if there is one. That of its own replica
/// comes first: each operation of an honest replica names the one before it, so of all its operations that wait at most one doesn't wait
/// for that.
pub fn awaited_position(op: &Op, applied: &[OpId], seen: &GrowingVector) -> Option<usize>
    requires { IsCanonical applied.now }
    ensures { IfSome result (λ i. IsAhead applied.now seen.now op.now i) }
{
    let ids = op.deps.ids();
    if let Ok(own) = ids.binary_search_by_key(&op.id.replica, |id| id.replica) {
        if is_ahead(op, own, applied, seen) {
            return Some(own);
        }
    }
    for position in 0..ids.len() {
        if is_ahead(op, position, applied, seen) {
            return Some(position);
        }
    }
    None
}

/// Whether the counter at a position of the operation's vector is neither applied nor seen.
fn is_ahead(op: &Op, position: usize, applied: &[OpId], seen: &GrowingVector) -> bool
    requires within { position < length op.now.deps }
    requires canonical { IsCanonical applied.now }
    ensures { IsTrue result → IsAhead applied.now seen.now op.now position }
{
    let id = op.deps.ids()[position];
    id.counter > counter_near(applied, position, id.replica)
        && id.counter > counter_near(seen.ids(), position, id.replica)
}

/// Whether no counter is awaited.
pub fn awaits_nothing(awaits: &BTreeSet<Awaited>) -> bool
    ensures { IsTrue result → (q : AnAwaited) → contains await_cmp awaits.now q ≡ false }
{
    awaits.is_empty()
}

/// The first awaited counter of this id's replica that is at most the id's, if there is one. One search.
pub fn first_met(awaits: &BTreeSet<Awaited>, id: &OpId) -> Option<Awaited>
    ensures some { IfSome result
        (λ q. (contains await_cmp awaits.now q ≡ true) × (q.replica ≡ id.now.replica) × (q.counter ≤ id.now.counter)) }
    ensures none { IfNone result
        ((q : AnAwaited) → contains await_cmp awaits.now q ≡ true → q.replica ≡ id.now.replica → id.now.counter < q.counter) }
{
    let first = Awaited {
        replica: id.replica,
        counter: 0,
        key: 0,
    };
    let awaited = awaits.range(first..).next()?;
    if awaited.replica != id.replica {
        return None;
    }
    if awaited.counter > id.counter {
        return None;
    }
    Some(*awaited)
}

/// Removes the counter at a position of the operation's vector, if the operation at this key waits for it. Returns whether it does. One
/// search.
fn forget_at(awaits: &mut BTreeSet<Awaited>, op: &Op, position: usize, key: usize) -> bool
    requires within { position < length op.now.deps }
    requires single { AreSingle awaits.old }
    ensures found { (a : TheId) → slice_get op.now.deps position ≡ Some a → result ≡ contains await_cmp awaits.old (awaited_by a key) }
    ensures kept { (q : AnAwaited) → q.key ≢ key → contains await_cmp awaits.new q ≡ contains await_cmp awaits.old q }
    ensures gone { IsTrue result → (q : AnAwaited) → contains await_cmp awaits.new q ≡ true → q.key ≢ key }
    ensures same { IsFalse result → (q : AnAwaited) → contains await_cmp awaits.new q ≡ contains await_cmp awaits.old q }
{
    let id = op.deps.ids()[position];
    awaits.remove(&awaited_by(id, key))
}

/// Removes what the operation at this key waited for. One search, if that is the counter at its position; else one for each counter of its
/// vector.
pub fn forget(awaits: &mut BTreeSet<Awaited>, waiting: &Waiting, key: usize)
    requires held { IsAwaiting awaits.old key waiting.now }
    requires single { AreSingle awaits.old }
    ensures kept { (q : AnAwaited) → q.key ≢ key → contains await_cmp awaits.new q ≡ contains await_cmp awaits.old q }
    ensures gone { (q : AnAwaited) → contains await_cmp awaits.new q ≡ true → q.key ≢ key }
{
    let op: &Op = &waiting.op;
    let count = op.deps.ids().len();
    let hint = waiting.position;
    if hint < count && forget_at(awaits, op, hint, key) {
        return;
    }
    for position in 0..count {
        if forget_at(awaits, op, position, key) {
            return;
        }
    }
}
