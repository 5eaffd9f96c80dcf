//! A history that one writer publishes and many readers query without locks, in two copies of a document (left-right).
//!
//! The writer appends entries and publishes them. A token is a reader: its questions are answered from a snapshot, the history as it was
//! published at one atomic step, which begins with all that the token had seen. Atomic steps, and what each ensures:
//!
//! - *publish* (the writer, in `Publisher::publish`): what is shown afterwards is the snapshot of all that was appended;
//! - *enter* (a reader, in `ReaderToken::ask`): what is read is what is shown at that step.
//!
//! An entry is cloned once on its way to the two copies; a read clones its answer and nothing of the history.
#![tactic(auto)]

mod book;
mod copy;
mod end;
mod notice;
mod publisher;
mod publishes;
mod queue_name;
mod seen;
mod token;
mod written;

pub use book::Opened;
pub use notice::{EngineName, Notice};
pub use publisher::{Publisher, open};
pub use queue_name::{QueueName, Unnamed};
pub use token::ReaderToken;
// The name of `ReaderToken` for those who use the copies without an engine.
pub use token::ReaderToken as Seat;

// Re-exported from the crates below, for users of this one.
pub use document::{Glance, Hop, Kinds, Reply, Row, Shared, Submission};
