//! The tests of an operation that is to wait, and of the next one that leaves the inbox.

ghost use Rattle.std.specs.Prelude.{◌≡◌, Some, None, IfOk, MatchResult};
ghost use Rattle.semantics.specs.Entries.{stamped_entries};
ghost use Rattle.semantics.specs.Joining.{check_fault};
ghost use Rattle.semantics.specs.Delivery.{Kept as IsKept, NotKept, answer_to_new};
ghost use Rattle.inbox.specs.operation.Ops.{stamped_of};
ghost use Rattle.replica.specs.Replicas.{replica_with};
ghost use Rattle.replica.specs.Turns.{IsNextTurn};

use crate::make::is_full;
use ids::{OpId, Refusal, ReplicaId};
use inbox::{Document, Inbox, Op};
use std::alloc::{AllocError, Global};

/// Tests whether an operation that is neither applied nor waits may wait.
pub fn check_wanted(
    own: ReplicaId,
    document: &Document,
    inbox: &Inbox,
    op: &Op,
) -> Result<(), Refusal>
    ensures { let answer = answer_to_new (replica_with own document.now inbox.now) (stamped_of op.now) in
        MatchResult result (λ _. answer ≡ IsKept) (λ why. answer ≡ NotKept why) }
{
    if op.id.replica == own {
        return Err(Refusal::OwnName);
    }
    if is_full(document) {
        return Err(Refusal::HistoryFull);
    }
    let ready = document.ready(op);
    if !inbox.has_room(ready) {
        return Err(Refusal::InboxFull);
    }
    if ready {
        return check_ready(document, op);
    }
    Ok(())
}

/// The one test of a ready operation, when it is delivered and when it leaves.
fn check_ready(document: &Document, op: &Op) -> Result<(), Refusal>
    ensures { let fault = check_fault document.now.members (stamped_entries document.now.entries) (stamped_of op.now) in
        MatchResult result (λ _. fault ≡ None) (λ why. fault ≡ Some why) }
{
    document.check(op)
}

/// What the next turn of a drain does with the smallest ready operation.
#[derive(Clone, Copy)]
pub enum Turn {
    /// It is lawful and appended. Everything that committing it needs is reserved.
    Append(OpId),
    /// It is unlawful and dropped.
    Drop(OpId),
}

/// What the next turn does, or `None` if nothing is ready or the history is full. The one search of a turn in the inbox.
///
/// # Errors
/// `AllocError` if allocation fails.
pub fn next_turn(
    alloc: Global,
    document: &mut Document,
    inbox: &Inbox,
) -> Result<Option<Turn>, AllocError>
    ensures members { document.new.members ≡ document.old.members }
    ensures entries { document.new.entries ≡ document.old.entries }
    ensures turn { IfOk result (λ t. IsNextTurn document.new inbox.now t) }
{
    if is_full(document) {
        return Ok(None);
    }
    let Some(op) = inbox.smallest_ready(document) else {
        return Ok(None);
    };
    match check_ready(document, op) {
        Ok(()) => {
            document.reserve(alloc, op)?;
            Ok(Some(Turn::Append(op.id)))
        }
        Err(_) => Ok(Some(Turn::Drop(op.id))),
    }
}
