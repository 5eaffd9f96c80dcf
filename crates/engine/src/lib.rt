//! An engine: one writer thread that owns a replica, clients that submit from their own threads, and readers that ask without locks.
//!
//! `prepare` and `open` return a writer, clients and reader tokens. A client submits a command and gets a ticket; the writer's `step`
//! handles up to a batch of what is queued, publishes, and answers; the client polls its ticket. Any token can ask at any time. Only
//! `open`, `submit`, `deliver`, `step` and `close` may wait for another thread.
#![tactic(auto)]

mod client;
mod closing;
mod opening;
mod pending;
mod writer;

pub use client::Client;
pub use closing::{Final, close};
pub use command::{EngineName, Glance, Hop, Kinds, Notice, ReaderToken, Row, Ticket};
pub use opening::{Parts, open, prepare};
pub use writer::{Step, Writer};

// The other names that an application uses: commands and questions, and the answers to them.
pub use ids::{Config, OpId, Refusal};
pub use replica::{
    Command, Entry, Expr, ExprStep, Key, Question, Reading, Reply, Scalar, Tag, Text, Val,
};

// Re-exported from the crates below, for users of this one.
pub use replica::{NamedVector, Op, Shared};
