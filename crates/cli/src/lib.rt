//! The command line of `jdoc`: its words, what a run reads and writes, its faults, and the statuses with which it ends.
#![tactic(auto)]

mod documents;
mod fault;
mod playing;
mod run;
mod words;

pub use documents::{serve, serve_store};
pub use fault::{Fault, Status};
pub use playing::bench;
pub use run::run_script;
pub use words::{BadWords, Job, read_words};
