//! A document: the history of a replica, and what it answers to questions.
#![tactic(auto)]

mod answer;
mod check;
mod document;
mod question;

pub use document::Document;
pub use question::{Question, Reading};

// Re-exported from the crates below, for users of this one.
pub use oplog::{
    Command, Delivered, Entry, Expr, ExprStep, GrowingVector, Key, Misplaced, NamedVector, Numbers,
    Op, Place, Publish, Reply, Request, Scalar, Shared, Submission, Tag, Text, Val, VersionVector,
    check_alone,
};
pub use tree::{Glance, Hop, Kinds, Row};
