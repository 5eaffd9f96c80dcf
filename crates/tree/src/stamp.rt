//! What an operation writes with, and what it clears.

use ids::{NamedVector, OpId, ReplicaTable};
use operation::VersionVector;

/// The id of an operation, the index of its replica in the table, and the vector of what it depends on.
#[derive(Clone, Copy, Debug)]
pub struct Stamp<'a> {
    pub table: &'a ReplicaTable,
    pub id: OpId,
    pub index: usize,
    pub vector: &'a NamedVector,
}

/// What a clear removes: the ids covered by a column, which is indexed by the table.
#[derive(Clone, Copy, Debug)]
pub struct Covered<'a> {
    pub table: &'a ReplicaTable,
    pub column: &'a VersionVector,
}
