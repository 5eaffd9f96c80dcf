//! The operations of peers that wait until all that they depend on is applied.
#![tactic(auto)]

mod awaited;
mod inbox;
mod smallest;
mod waits;

pub use inbox::Inbox;

// Re-exported from the crates below, for users of this one.
pub use document::{
    Command, Delivered, Document, Entry, Expr, ExprStep, GrowingVector, Key, Misplaced,
    NamedVector, Op, Place, Publish, Question, Reading, Reply, Request, Scalar, Shared, Submission,
    Tag, Text, Val, VersionVector, check_alone,
};
