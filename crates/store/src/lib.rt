//! Storage for the lines of a journal, which makes them survive a loss of power.
//!
//! A `Store` is a place for bytes, and a `FileStore` is one on a file. A `Journal` is what a store had when it was read. A `Shelf` appends
//! lines to a store: a line that was appended is there at the next start.
#![tactic(auto)]

mod fault;
mod file;
mod number;
mod saved;
mod shelf;
mod store;

pub use fault::{Fault, Unopened};
pub use file::FileStore;
pub use number::draw_number;
pub use saved::{Journal, is_begun, unfit, whole_len};
pub use shelf::Shelf;
pub use store::{Store, StoreFailed};
