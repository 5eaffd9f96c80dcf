//! One thread's replica: it makes operations of commands, takes those of peers in any order, and keeps one legal history.
#![tactic(auto)]

mod handler;
mod make;
mod replica;
mod waiting;

pub use handler::Handler;
pub use replica::Replica;

// Re-exported from the crates below, for users of this one.
pub use inbox::{
    Command, Delivered, Document, Entry, Expr, ExprStep, GrowingVector, Key, NamedVector, Op,
    Publish, Question, Reading, Reply, Request, Scalar, Shared, Submission, Tag, Text, Val,
    VersionVector,
};
