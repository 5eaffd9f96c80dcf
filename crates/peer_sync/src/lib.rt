//! Anti-entropy between engines: the exchange of operations, as lines of JSON.
//!
//! An engine says `hello` with the vector of all that it has published. A peer's `answer` is the operations that this vector doesn't cover,
//! as a bundle of lines. A client of the first engine `receive`s the bundle and submits them. The bytes may take any route, and arrive
//! late, twice, in any order or never: what a peer sends is never trusted.
#![tactic(auto)]

mod agreement;
mod receiving;
mod sending;

pub use agreement::tokens_answer_alike;
pub use receiving::{Received, receive, receive_on};
pub use sending::{answer, hello, read_hello};

// Re-exported from the crates below, for users of this one.
pub use engine::{
    Client, Command, EngineName, Expr, ExprStep, Key, Parts, Question, ReaderToken, Reading, Reply,
    Scalar, Step, Ticket, Val, Writer, close, open, prepare,
};
pub use wire::BundleReader;
