//! A session: one document of one replica, on one thread.
//!
//! What is written is made and appended at once, what peers send is received line by line, and the history is written as the lines of a
//! journal and replayed from them. Nothing waits for another thread, and nothing is kept but the history and the operations that wait in
//! the inbox.
#![tactic(auto)]

mod session;

pub use session::{Answered, Received, Refused, Session};

// Re-exported from the crates below, for users of this one.
pub use records::{Replayed, Unfit};
pub use replica::{Command, Document, Expr, Question};
