//! What changed from a base, read from JSON: a list of pairs of a replica and its new counter.
#![tactic(auto, using(crate::proofs::WrongLengths::wrong_lengths))]

ghost use Rattle.std.specs.Prelude.{◌≡◌, ◌==◌, IfOk};
ghost use Rattle.ids.specs.Vectors.{IsCanonical, at};
ghost use Rattle.serde_json.specs.View.{view, items_view};
ghost use Rattle.wire.specs.Deltas.{IsRising, change_counter_form, change_form, changes_above, delta_form};
ghost use Rattle.wire.specs.Forms.{IsRead};

use crate::deltas::changed;
use crate::forms::{list_in, number_in};
use crate::op_ids::replica_in;
use ids::{MOST_COUNTER, NamedVector, OpId, Refusal, counter_of};
use serde_json::Value;
use std::alloc::Global;

/// The vector that a list of changes makes of a base.
///
/// # Errors
/// `BadLine` if it is no list, if it has a pair of another form, out of ascending order or with the base's own counter, or if the resulting
/// vector has more than 256 pairs. `NoMemory` if allocation fails.
pub(crate) fn delta_in(alloc: Global, base: &[OpId], value: &Value) -> Result<NamedVector, Refusal>
    requires { IsCanonical base.now }
    ensures { IsRead (λ v. v) result (delta_form base.now (view value.now)) }
{
    let changes = changes_in(alloc, base, list_in(value)?)?;
    changed(alloc, base, changes.as_slice())
}

/// The changes of these pairs. Costs a binary search of the base for each.
fn changes_in(alloc: Global, base: &[OpId], pairs: &[Value]) -> Result<Vec<OpId>, Refusal>
    requires { IsCanonical base.now }
    ensures read { IsRead (λ changes. changes.items) result (changes_above base.now 0 (items_view pairs.now)) }
    ensures rising { IfOk result (λ changes. IsRising changes.items) }
{
    let mut changes = Vec::new(alloc);
    let mut last = 0;
    for pair in pairs {
        let change = change_in(pair)?;
        let replica = change.replica.number();
        if replica <= last || is_in(base, &change) {
            return Err(Refusal::BadLine);
        }
        changes.push(change)?;
        last = replica;
    }
    Ok(changes)
}

/// Whether the base has this counter for the replica, which is 0 if it doesn't name it.
fn is_in(base: &[OpId], change: &OpId) -> bool
    requires { IsCanonical base.now }
    ensures { result ≡ (at base.now change.now.replica == change.now.counter) }
{
    counter_of(base, change.replica) == change.counter
}

/// The pair of a replica and its new counter.
fn change_in(value: &Value) -> Result<OpId, Refusal>
    ensures { result ≡ change_form (view value.now) }
{
    let [replica, counter] = list_in(value)? else {
        return Err(Refusal::BadLine);
    };
    let replica = replica_in(replica)?;
    let counter = change_counter_in(counter)?;
    Ok(OpId { counter, replica })
}

/// A counter, or 0.
fn change_counter_in(value: &Value) -> Result<u64, Refusal>
    ensures { result ≡ change_counter_form (view value.now) }
{
    let counter = number_in(value)?;
    if counter > MOST_COUNTER {
        return Err(Refusal::BadLine);
    }
    Ok(counter)
}
