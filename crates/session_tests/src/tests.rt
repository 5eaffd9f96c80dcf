//! Sessions that write, exchange and resume from their journals, as tables that small functions play.

mod answers;
mod exchanges;
mod journals;
mod playing;
mod receipts;
mod refused_memory;

use ids::Refusal;
use std::test::Fail;

/// The hello of a peer that has nothing.
const NEW: &str = r#"["hello",[]]
"#;
