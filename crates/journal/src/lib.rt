//! A journal: the history of an engine as lines, and an engine that resumes from them.
//!
//! `write_from` returns the lines of the entries from a position on, for an application to append to those it has stored. A `Replay` brings
//! them back into a new engine of the same number: its history is then that of the journal, its next id is above all of them, and it is the
//! same replica, as long as nothing beyond the journal was handed out (`lives_are_of_one_world` of `semantics`).
#![tactic(auto)]

mod outgoing;
mod replaying;
mod writing;

pub use outgoing::{Answered, Outgoing};
pub use replaying::Replay;
pub use writing::{Written, write_from};

// Re-exported from the crates below, for users of this one.
pub use peer_sync::{BundleReader, Received, receive_on};
pub use records::{Recorded, Replayed, Unfit, read_record, records_are_read_back};
