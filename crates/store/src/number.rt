//! The number of a device that hasn't written yet.

use crate::fault::Fault;
use crate::store::StoreFailed;
use ids::{Refusal, ReplicaId};
use std::random::RandomSource;

/// A random number, for a device whose journal has no own command yet.
///
/// # Errors
/// `Store` if the system gives no random bytes.
pub fn draw_number(rt: &impl RandomSource) -> Result<ReplicaId, Fault> {
    let mut bytes = [0; 4];
    if let Err(error) = rt.fill_bytes(&mut bytes) {
        return Err(Fault::Store(StoreFailed::from(error)));
    }
    // 0 isn't a number.
    let number = u32::from_le_bytes(bytes).max(1);
    Ok(ReplicaId::new(number).ok_or(Refusal::UnknownReplica)?)
}
