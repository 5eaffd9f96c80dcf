//! A list with fast reads at any position, in chunks of which an insert moves at most one.
#![tactic(auto)]

mod chunk;
mod chunks;
mod ends;
mod front;
mod reader;

pub use chunks::Chunks;
pub use reader::Reader;
