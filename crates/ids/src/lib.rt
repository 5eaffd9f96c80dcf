//! What every other crate uses: the ids of operations, tables of replicas, the refusals of calls, and the configuration of an engine.
#![tactic(auto)]

mod config;
mod growing;
mod id;
mod members;
mod named_vector;
mod refusal;
mod table;

pub use config::{Config, MOST_QUEUE};
pub use growing::GrowingVector;
pub use id::{MOST_COUNTER, OpId, ReplicaId, ids_are_ordered_by_counter};
pub use named_vector::{MOST_NAMED, NamedVector, counter_near, counter_of, greatest_counter};
pub use refusal::Refusal;
pub use table::ReplicaTable;
