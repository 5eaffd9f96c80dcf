//! The tests of a received operation that need no history.

ghost use Rattle.std.specs.Prelude.{◌≡◌, None, Some, MatchResult};
ghost use Rattle.semantics.specs.Operations.{element_of};
ghost use Rattle.semantics.specs.Faults.{has_counter, items_covered};
ghost use Rattle.cursor.specs.Steps.{hop_of};
ghost use Rattle.operation.specs.Alone.{alone_fault_of_op, key_covered};
ghost use Rattle.operation.specs.Ops.{stamped_of};

use crate::misplaced::Misplaced;
use crate::op::Op;
use cursor::{Hop, Place};
use ids::{MOST_COUNTER, NamedVector, Refusal};

/// The first fault that can be seen of an operation without a history.
///
/// # Errors
/// In this order: `BadCounter` if its counter isn't 1 plus the greatest of its vector, or is past the greatest counter of an id;
/// `NotInList` for an insert that stands neither at a head nor at an item; `BadPlace` for an assign or a delete at a head, or if its vector
/// doesn't cover an item of its place.
pub fn check_alone(op: &Op) -> Result<(), Refusal>
    ensures { MatchResult result (λ _. alone_fault_of_op op.now ≡ None) (λ why. alone_fault_of_op op.now ≡ Some why) }
{
    if !has_counter(op) {
        return Err(Refusal::BadCounter);
    }
    match op.mutation.misplaced_at(&op.place) {
        Some(Misplaced::OutsideList) => return Err(Refusal::NotInList),
        Some(Misplaced::OnHead) => return Err(Refusal::BadPlace),
        None => {}
    }
    if !covers_items(&op.deps, &op.place) {
        return Err(Refusal::BadPlace);
    }
    Ok(())
}

/// Whether the counter is the one after the greatest of the vector.
fn has_counter(op: &Op) -> bool
    ensures { result ≡ has_counter (stamped_of op.now) }
{
    let greatest = op.deps.greatest();
    if greatest >= MOST_COUNTER {
        return false;
    }
    op.id.counter == greatest + 1
}

/// Whether the vector covers each item of the place.
fn covers_items(vector: &NamedVector, place: &Place) -> bool
    ensures { result ≡ items_covered vector.now (element_of place.now) }
{
    place.hops().iter().all(|hop| is_covered(hop, vector))
}

/// Whether the hop is to a field, or to an item that the vector covers.
fn is_covered(hop: &Hop, vector: &NamedVector) -> bool
    ensures { result ≡ key_covered vector.now (hop_of hop.now) }
{
    match hop {
        Hop::Field(_) => true,
        Hop::Item(id) => vector.covers(*id),
    }
}
