//! The search for the smallest operation that is ready.

ghost use Rattle.std.specs.Prelude.{◌≡◌, ℕ, List, Some, true, IsTrue};
ghost use Rattle.std.specs.BTreeSet.{contains};
ghost use Rattle.std.specs.FinMap.{is_sorted};
ghost use Rattle.semantics.specs.Ids.{OpId as TheId, id_cmp};
ghost use Rattle.semantics.specs.Entries.{applied};
ghost use Rattle.semantics.specs.NamedIds.{greatest_counter};
ghost use Rattle.inbox.specs.declared.awaited.Awaited.{Awaited as AnAwaited};
ghost use Rattle.document.specs.operation.declared.op.Op.{Op as AnOp};
ghost use Rattle.slab.specs.Slab.{get};
ghost use Rattle.semantics.specs.Faults.{is_ready};
ghost use Rattle.document.specs.operation.Ops.{stamped_of};
ghost use Rattle.inbox.specs.Awaiting.{await_cmp, first_of, is_above, is_ready_at, AreAwaiting, AreUnseen, IsMet, IsPassed, IsReadyAt};
ghost use Rattle.inbox.specs.Awaiting.{IsSettled};

use crate::awaited::{Awaited, Waiting, awaits_nothing, op_at};
use crate::waits::Waits;
use document::{Document, Numbers, Op};
use ids::{OpId, counter_near};
use slab::Slab;
use std::alloc::Global;

/// Returns the smallest operation that is ready, as its id and its key in the slab, if there is one. Looks at those that may be ready,
/// up to the first that is, and at those that wait for a counter which was applied and not seen yet.
pub fn smallest(ops: &Slab<Waiting>, waits: &Waits, document: &Document) -> Option<(OpId, usize)>
    requires { (es : List (TheId × ℕ)) × AreAwaiting ops.now es waits.now }
    ensures ready { IsReadyAt (applied document.now.entries) ops.now result }
    ensures met { (k : ℕ) (o : AnOp) → get ops.now k ≡ Some o
        → is_ready (applied document.now.entries) (stamped_of o) ≡ true → IsMet result o.id }
{
    let mut least = first_ready(ops, &waits.ready, document);
    if awaits_nothing(&waits.awaits) {
        return least;
    }
    let applied = document.applied().ids();
    for position in 0..applied.len() {
        least = smallest_of(ops, waits, document, applied[position], position, least);
    }
    least
}

/// Returns the first entry whose operation is ready, if there is one: the smallest ready one of these.
fn first_ready(ops: &Slab<Waiting>, ready: &Numbers, document: &Document) -> Option<(OpId, usize)>
    ensures first { result ≡ first_of (applied document.now.entries) ops.now ready.now.entries }
    ensures rising { IsTrue (is_sorted id_cmp ready.now.entries) }
{
    for position in 0..ready.len() {
        let (id, key) = ready.at(position);
        if is_ready_at(ops, document, key) {
            return Some((id, key));
        }
    }
    None
}

/// Whether there is an operation at this key, and it is ready.
fn is_ready_at(ops: &Slab<Waiting>, document: &Document, key: usize) -> bool
    ensures { result ≡ is_ready_at (applied document.now.entries) ops.now key }
{
    match op_at(ops, key) {
        Some(op) => document.ready(op),
        None => false,
    }
}

/// Looks at the operations that wait for a counter of this id's replica up to the id's, which is what is applied of it, unless that much
/// was seen already. `position` is a hint for the replica's pair in what was seen. Returns the smaller of `before` and the smallest of
/// these that is ready.
fn smallest_of(
    ops: &Slab<Waiting>,
    waits: &Waits,
    document: &Document,
    id: OpId,
    position: usize,
    before: Option<(OpId, usize)>,
) -> Option<(OpId, usize)>
    requires applied { greatest_counter (applied document.now.entries) id.replica ≡ id.counter }
    requires unseen { AreUnseen waits.now }
    requires ready { IsReadyAt (applied document.now.entries) ops.now before }
    ensures ready { IsReadyAt (applied document.now.entries) ops.now result }
    ensures met { (a : TheId) → IsMet before a → IsMet result a }
    ensures passed { (q : AnAwaited) → contains await_cmp waits.now.awaits q ≡ true → q.replica ≡ id.replica
        → IsPassed (applied document.now.entries) ops.now result q }
{
    if id.counter <= counter_near(waits.seen.ids(), position, id.replica) {
        return before;
    }
    let first = Awaited {
        replica: id.replica,
        counter: 0,
        key: 0,
    };
    let mut least = before;
    for awaited in waits.awaits.range(first..) {
        if awaited.replica != id.replica {
            return least;
        }
        if awaited.counter > id.counter {
            return least;
        }
        least = smaller(ops, document, least, awaited.key);
    }
    least
}

/// Returns the operation at this key, if it is ready and isn't greater than `before`; else `before`.
fn smaller(
    ops: &Slab<Waiting>,
    document: &Document,
    before: Option<(OpId, usize)>,
    key: usize,
) -> Option<(OpId, usize)>
    requires { IsReadyAt (applied document.now.entries) ops.now before }
    ensures ready { IsReadyAt (applied document.now.entries) ops.now result }
    ensures met { (a : TheId) → IsMet before a → IsMet result a }
    ensures settled { IsSettled (applied document.now.entries) ops.now result key }
{
    let Some(op) = op_at(ops, key) else {
        return before;
    };
    if is_above(&before, op) {
        return before;
    }
    if !document.ready(op) {
        return before;
    }
    Some((op.id, key))
}

/// Returns whether the operation is greater than `before`, if there is one.
fn is_above(before: &Option<(OpId, usize)>, op: &Op) -> bool
    ensures { result ≡ is_above before.now op.now.id }
{
    match before {
        Some((smallest, _)) => *smallest < op.id,
        None => false,
    }
}
