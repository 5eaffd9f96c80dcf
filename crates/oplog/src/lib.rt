//! The history of a replica: its entries in the order in which they were applied.
#![tactic(auto)]

mod log;
mod publish;

pub use log::{Log, positions_name_what_is_missing, what_may_follow_is_new};
pub use publish::Publish;

// Re-exported from the crates below, for users of this one.
pub use columns::Numbers;
pub use operation::{
    Command, Delivered, Entry, Expr, ExprStep, GrowingVector, Key, Misplaced, Mutation,
    NamedVector, Op, Place, Reply, Request, Scalar, Shared, Submission, Tag, Text, Val,
    VersionVector, check_alone,
};
