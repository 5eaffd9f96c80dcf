//! Questions to a document, and its answers.

use ids::{NamedVector, OpId};
use oplog::{Expr, Key, Op, Scalar, Shared, Tag};

/// A question to a document. If nothing is present there, or only something of another type, the answer is empty. `peer_sync` asks the last
/// two.
#[derive(Debug, Drop)]
pub enum Question {
    /// For the values at the element: none, one, or one for each of several concurrent assigns.
    Values(Expr),
    /// For the keys of the map at the element. Costs a look at each; the flags of other fields are passed many at a time.
    Keys(Expr),
    /// For the items of the list at the element. Costs a look at every item, tombstones included, in the blocks that have a visible one.
    Items(Expr),
    /// For the ids of the live writes at the element and beneath it, each with the tag that it gives the element.
    Conflicts(Expr),
    /// For the operations that the vector doesn't cover.
    Missing(NamedVector),
    /// For the vector of all that was applied.
    Vector,
}

/// The answer to a question.
#[derive(Debug, Drop)]
pub enum Reading {
    /// The values with the ids of the operations that wrote them, in ascending id order. To show a single one, take the last: replicas with
    /// the same operations then show the same one.
    Values(Vec<(OpId, Scalar)>),
    /// The keys at which something is present, in ascending byte order.
    Keys(Vec<Key>),
    /// The ids of the visible items, in list order.
    Items(Vec<OpId>),
    /// The ids of those writes, each with the tag that it gives the element, in ascending id order.
    Conflicts(Vec<(OpId, Tag)>),
    /// The operations, the oldest first.
    Missing(Vec<Shared<Op>>),
    /// The greatest applied counter of each replica.
    Vector(NamedVector),
}
