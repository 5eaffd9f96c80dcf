//! One document over lines: the calls that are sent to a program, one per line, and its responses.
//!
//! `read_call` says what a line calls for, and `write_response` writes the line that answers it. Neither knows of a document or a file:
//! what happens between the two is up to the program.
#![tactic(auto)]

mod call;
mod reading;
mod response;
mod writing;

pub use call::Call;
pub use reading::read_call;
pub use response::{RefusedLines, Response, StoppedLine};
pub use writing::write_response;
