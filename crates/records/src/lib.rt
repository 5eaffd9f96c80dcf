//! Records: what a journal keeps of each entry of a history, as lines.
//!
//! `lines_of` writes the lines of entries, and `read_record` says what a line records. An engine or a session that replays a journal tests
//! each entry against its line with `check_recorded`, and returns a `Replayed` that says how far it came.
#![tactic(auto)]

mod record;
mod replaying;
mod writing;

pub use record::{Recorded, read_record, records_are_read_back};
pub use replaying::{Replayed, Unfit, check_recorded};
pub use writing::lines_of;

// Re-exported from the crates below, for users of this one.
pub use json::Scratch;
pub use requests::{BundleReader, BundleWriter, LINE_END, Lines, read_vector, write_bundle};
