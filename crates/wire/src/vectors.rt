//! Version vectors, read from JSON: a list of pairs of a replica and its counter.
#![tactic(auto, using(crate::proofs::WrongLengths::wrong_lengths))]

ghost use Rattle.std.specs.Prelude.{◌≡◌, ◌≤◌, IfOk, length};
ghost use Rattle.ids.specs.Vectors.{most_named};
ghost use Rattle.serde_json.specs.View.{view, items_view};
ghost use Rattle.wire.specs.Forms.{IsRead};
ghost use Rattle.wire.specs.Vectors.{pair_form, pairs_above, vector_form};

use crate::forms::list_in;
use crate::op_ids::{counter_in, replica_in};
use ids::{MOST_NAMED, NamedVector, OpId, Refusal};
use serde_json::Value;
use std::alloc::Global;

/// A vector, in ascending order of replica.
///
/// # Errors
/// `BadLine` if it is no list, has more than 256 pairs, or has one of another form or out of ascending order. `NoMemory` if allocation
/// fails.
pub fn vector_in(alloc: Global, value: &Value) -> Result<NamedVector, Refusal>
    ensures { IsRead (λ v. v) result (vector_form (view value.now)) }
{
    let pairs = list_in(value)?;
    if pairs.len() > MOST_NAMED {
        return Err(Refusal::BadLine);
    }
    pairs_in(alloc, pairs)
}

fn pairs_in(alloc: Global, pairs: &[Value]) -> Result<NamedVector, Refusal>
    requires { length pairs.now ≤ most_named }
    ensures { IsRead (λ v. v) result (pairs_above 0 (items_view pairs.now)) }
{
    let mut vector = NamedVector::with_capacity(alloc, pairs.len())?;
    let mut last = 0;
    for pair in pairs {
        let id = pair_in(pair)?;
        let replica = id.replica.number();
        if replica <= last {
            return Err(Refusal::BadLine);
        }
        vector.push(id)?;
        last = replica;
    }
    Ok(vector)
}

/// The id of a pair of a replica and its counter.
fn pair_in(value: &Value) -> Result<OpId, Refusal>
    ensures form { result ≡ pair_form (view value.now) }
    ensures counted { IfOk result (λ id. 1 ≤ id.counter) }
{
    let [replica, counter] = list_in(value)? else {
        return Err(Refusal::BadLine);
    };
    let replica = replica_in(replica)?;
    let counter = counter_in(counter)?;
    Ok(OpId { counter, replica })
}
