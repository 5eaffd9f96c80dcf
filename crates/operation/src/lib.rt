//! Operations: what a client commands, and what a replica makes of it, keeps and sends.
#![tactic(auto)]

mod alone;
mod command;
mod misplaced;
mod op;
mod shared;
mod submission;

pub use alone::check_alone;
pub use command::{Command, Delivered, Entry};
pub use misplaced::Misplaced;
pub use op::{Mutation, Op};
pub use shared::Shared;
pub use submission::{Reply, Request, Submission};

// Re-exported from the crates below, for users of this one.
pub use cursor::{
    Expr, Hop, Key, MOST_KEY_BYTES, MOST_KEYS, Place, Scalar, Step as ExprStep, Tag, Text, Val,
};
pub use ids::{GrowingVector, NamedVector};
pub use version::VersionVector;
