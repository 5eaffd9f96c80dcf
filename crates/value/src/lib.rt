//! Values, as operations write them and JSON has them, and the keys of maps.
#![tactic(auto)]

mod form;
mod text;
mod value;

pub use form::values_are_read_back;
pub use text::{BoundedText, Key, MOST_KEY_BYTES, MOST_TEXT_BYTES, Text};
pub use value::{Scalar, Val};
