//! The entry of a map by id.

ghost use Rattle.std.specs.Prelude.{◌≡◌};
ghost use Rattle.columns.specs.Entries.{id_of};

use ids::{OpId, ReplicaId};

/// An id, the index of its replica in the table, and its value. The parts of the id are separate fields, so that an entry with a small
/// value takes 24 bytes.
#[derive(Debug, Drop)]
pub struct Entry<T> {
    pub counter: u64,
    pub index: usize,
    pub replica: ReplicaId,
    pub value: T,
}

impl<T> Entry<T> {
    /// The entry of an id.
    pub fn new(id: OpId, index: usize, value: T) -> Entry<T>
        ensures id { id_of result ≡ id }
        ensures index { result.index ≡ index }
        ensures value { result.value ≡ value }
    {
        Entry {
            counter: id.counter,
            index,
            replica: id.replica,
            value,
        }
    }

    /// The id.
    pub fn id(&self) -> OpId
        ensures { result ≡ id_of self.now }
    {
        OpId {
            counter: self.counter,
            replica: self.replica,
        }
    }
}
