//! Whether a ready operation may follow the history.

ghost use Rattle.std.specs.Prelude.{◌≡◌, not, List, None, Some, MatchResult};
ghost use Rattle.std.specs.Cmp.Lexicographic.{pointwise};
ghost use Rattle.semantics.specs.Ids.{is_same_id};
ghost use Rattle.semantics.specs.Operations.{Operation};
ghost use Rattle.semantics.specs.LegalHistory.{has_id};
ghost use Rattle.semantics.specs.NamedIds.{vector_of};
ghost use Rattle.semantics.specs.Stamped.{Stamped, IsLegalStamped};
ghost use Rattle.semantics.specs.Entries.{applied as operations_in, stamped_entries};
ghost use Rattle.semantics.specs.Faults.{breaks_chain, fault_of, is_open, names_nothing};
ghost use Rattle.oplog.specs.operation.Ops.{stamped_of};
ghost use Rattle.document.specs.Documents.{IsConsistent};
ghost use Rattle.document.specs.Checks.{opens};

use ids::{NamedVector, OpId, Refusal, counter_of};
use oplog::{GrowingVector, Log, Op};
use tree::Tree;

/// The first fault of an operation against the history, if the tree holds its document.
pub fn check(log: &Log, applied: &GrowingVector, tree: &Tree, op: &Op) -> Result<(), Refusal>
    requires { IsConsistent log.now.table applied.now.ids log.now.entries tree.now }
    ensures { let fault = fault_of (stamped_entries log.now.entries) (stamped_of op.now) in
        MatchResult result (λ _. fault ≡ None) (λ why. fault ≡ Some why) }
{
    if breaks_chain(applied, op) {
        return Err(Refusal::BrokenChain);
    }
    if names_nothing(log, applied, &op.deps) {
        return Err(Refusal::NamesNothing);
    }
    if is_open(log, applied, &op.deps) {
        return Err(Refusal::NotClosed);
    }
    if !tree.has_items(&op.place) {
        return Err(Refusal::BadPlace);
    }
    Ok(())
}

/// Whether the vector's counter for the operation's own replica differs from the greatest that was applied.
fn breaks_chain(applied: &GrowingVector, op: &Op) -> bool
    ensures { (H : List Operation) → applied.now.ids ≡ vector_of H → result ≡ breaks_chain H (stamped_of op.now) }
{
    op.deps.at(op.id.replica) != counter_of(applied.ids(), op.id.replica)
}

/// Whether the vector names all that was applied. One comparison.
fn names_all(vector: &NamedVector, applied: &GrowingVector) -> bool
    ensures { result ≡ pointwise is_same_id vector.now applied.now.ids }
{
    vector.ids() == applied.ids()
}

/// Whether the vector has a counter that belongs to no operation of the log. One comparison if the vector is that of all that was applied,
/// as every vector is where no writes are concurrent; else a binary search for each counter.
fn names_nothing(log: &Log, applied: &GrowingVector, vector: &NamedVector) -> bool
    requires { applied.now.ids ≡ vector_of (operations_in log.now.entries) }
    ensures { (s : Stamped) → s.vector ≡ vector.now → result ≡ names_nothing (operations_in log.now.entries) s }
{
    if names_all(vector, applied) {
        return false;
    }
    vector.ids().iter().any(|id| is_of_nobody(log, *id))
}

/// Whether no operation of the log has this id.
fn is_of_nobody(log: &Log, id: OpId) -> bool
    ensures { result ≡ not (has_id (operations_in log.now.entries) id) }
{
    log.find(id).is_none()
}

/// Whether an operation that the vector names has a vector that isn't at most this one. One comparison if this one names all that was
/// applied; else, for each counter, a binary search and a walk along the vector of the operation found.
fn is_open(log: &Log, applied: &GrowingVector, vector: &NamedVector) -> bool
    requires applied { applied.now.ids ≡ vector_of (operations_in log.now.entries) }
    requires legal { IsLegalStamped (stamped_entries log.now.entries) }
    ensures { result ≡ is_open (stamped_entries log.now.entries) vector.now }
{
    if names_all(vector, applied) {
        return false;
    }
    vector.ids().iter().any(|id| opens(log, vector, *id))
}

/// Whether the operation with this id has a vector that isn't at most this one.
fn opens(log: &Log, vector: &NamedVector, id: OpId) -> bool
    ensures { result ≡ opens log.now.entries vector.now id }
{
    let Some(position) = log.find(id) else {
        return false;
    };
    match log.get(position) {
        Some(entry) => !entry.op().deps.is_at_most(vector.ids()),
        None => false,
    }
}
