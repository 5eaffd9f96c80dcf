//! A list with constant-time reads at any position, and cheap inserts at any position, even among a million items.
#![tactic(auto)]

mod contiguous;
mod rings;
mod starts;

pub use rings::{Rings, insert_reserved};
