//! The content of a document as numbered nodes.
#![tactic(auto)]

mod answer;
mod apply;
mod clear;
mod find;
mod glance;
mod grow;
mod insert;
mod items_inserted;
mod node;
mod reserve;
mod resolve;
mod show;
mod spot;
mod stamp;
mod tree;
mod walk;
mod write;

pub use glance::{Glance, Row};
pub use tree::Tree;

// Re-exported from the crates below, for users of this one.
pub use columns::Kinds;
pub use operation::Hop;
