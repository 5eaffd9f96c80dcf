//! What a line calls for.

use requests::{Command, Expr, Question};

/// What a line calls for.
#[derive(Debug, Drop)]
pub enum Call {
    /// To make a command, and to save it.
    Write(Command),
    /// For the answer to a question.
    Ask(Question),
    /// For the element to which the expression leads and what is beneath it, to this depth below it and at most this many elements.
    Glance {
        expression: Expr,
        depth: u64,
        elements: u64,
    },
    /// For the line that tells a peer what is known here.
    Hello,
    /// For the operations that the peer with this hello lacks. The hello is a line with or without its line feed.
    Answer(String),
    /// To receive the lines of a bundle, and to save them.
    Receive(String),
    /// To save everything.
    Save,
    /// For the length of the history, and how much of it is saved.
    Status,
}
