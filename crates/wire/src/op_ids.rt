//! Reading the ids of operations.
#![tactic(auto, using(crate::proofs::WrongLengths::wrong_lengths))]

ghost use Rattle.std.specs.Prelude.{◌≡◌, ◌≤◌, IfOk};
ghost use Rattle.serde_json.specs.View.{view, items_view};
ghost use Rattle.wire.specs.OpIds.{counter_form, id_form, id_of, limited_form, replica_form};

use crate::forms::{list_in, number_in};
use ids::{MOST_COUNTER, OpId, Refusal, ReplicaId};
use serde_json::Value;

/// The greatest number of a replica.
const MOST_REPLICA: u64 = 4_294_967_295;

/// The id of an operation.
///
/// # Errors
/// `BadLine` if it isn't a list of a counter and a replica, each within its limits.
pub fn id_in(value: &Value) -> Result<OpId, Refusal>
    ensures { result ≡ id_form (view value.now) }
{
    id_of(list_in(value)?)
}

/// The id of a list of a counter and a replica.
pub(crate) fn id_of(parts: &[Value]) -> Result<OpId, Refusal>
    ensures { result ≡ id_of (items_view parts.now) }
{
    let [counter, replica] = parts else {
        return Err(Refusal::BadLine);
    };
    let counter = counter_in(counter)?;
    let replica = replica_in(replica)?;
    Ok(OpId { counter, replica })
}

pub(crate) fn counter_in(value: &Value) -> Result<u64, Refusal>
    ensures form { result ≡ counter_form (view value.now) }
    ensures counted { IfOk result (λ n. 1 ≤ n) }
{
    limited_in(value, MOST_COUNTER)
}

pub(crate) fn replica_in(value: &Value) -> Result<ReplicaId, Refusal>
    ensures { result ≡ replica_form (view value.now) }
{
    let number = limited_in(value, MOST_REPLICA)?;
    ReplicaId::new(number as u32).ok_or(Refusal::BadLine)
}

/// A number from 1 to the limit.
fn limited_in(value: &Value, limit: u64) -> Result<u64, Refusal>
    ensures form { result ≡ limited_form limit (view value.now) }
    ensures limits { IfOk result (λ n. (1 ≤ n) × (n ≤ limit)) }
{
    let number = number_in(value)?;
    if number < 1 || number > limit {
        return Err(Refusal::BadLine);
    }
    Ok(number)
}
