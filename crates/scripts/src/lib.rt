//! Scripts: lines of JSON that open a world of engines and move it step by step, and the replies to them.
#![tactic(auto)]

mod configuration;
mod error;
mod exists;
mod numbered_steps;
mod numbers;
mod pushes;
mod replies;
mod run;
mod script;
mod steps;

pub use error::ScriptError;
pub use replies::reply_lines;
pub use run::{Replies, replies_to};
pub use script::{Script, read_script};
pub use steps::what_is_read_is_written_alike;
