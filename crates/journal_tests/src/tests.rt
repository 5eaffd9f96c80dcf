//! Engines that end and resume from their journals, as tables that small functions play.

mod damaged;
mod going_on;
mod handed_out;
mod opening;
mod playing;
mod stored;

use std::test::Fail;

/// The hello of a peer that has nothing.
const NEW: &str = r#"["hello",[]]
"#;
