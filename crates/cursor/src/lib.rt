//! Cursors: places in a document, and expressions that lead to them.
#![tactic(auto)]

mod expression;
mod hop;
mod place;
mod tag;

pub use expression::{Expr, Step};
pub use hop::{Hop, Last};
pub use place::{MOST_KEYS, Place};
pub use tag::Tag;

// Re-exported from the crates below, for users of this one.
pub use value::{Key, MOST_KEY_BYTES, Scalar, Text, Val};
