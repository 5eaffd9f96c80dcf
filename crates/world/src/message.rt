//! Messages between engines.

use replica::{NamedVector, Op, Shared};

/// A message between engines.
#[derive(Debug, Drop)]
pub enum Message {
    /// All that the sender has published, as a vector.
    Hello(NamedVector),
    /// Operations, the oldest first.
    Bundle(Vec<Shared<Op>>),
}
