//! One document over lines: one request per line, one reply per line, and whatever a reply says was made, received or saved is on the
//! shelf.
//!
//! A `Desk` is a session and the shelf that keeps its journal; `serve` reads requests and writes replies until the input ends.
#![tactic(auto)]

mod answering;
mod desk;
mod lines;
mod memory;
mod starting;
mod talk;

pub use answering::{ask, glance};
pub use desk::Desk;
pub use lines::{Found, MOST_LINE, next_line};
pub use memory::Memory;
pub use starting::{NotServed, start};
pub use talk::{Stop, serve};

// Re-exported from the crates below, for users of this one.
pub use session::Unfit;
pub use store::{FileStore, Store};
