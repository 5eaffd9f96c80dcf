//! The response to a call.

use ids::{NamedVector, OpId, Refusal};
use requests::{Glance, Reading};

/// The response to a call, or what the program says of itself. A length is the number of operations in the history.
#[derive(Debug, Drop)]
pub enum Response {
    /// The id and the position of what was made of a command and saved.
    Made(OpId, u64),
    /// Why nothing was made, read or looked at, and the length.
    Refused(Refusal, u64),
    /// Why a line is no call, or its text no hello.
    Denied(Refusal),
    /// The length, and the answer to a question.
    Read(u64, Reading),
    /// The length, and a glance.
    Glance(u64, Glance),
    /// The vector of everything that is here, for a peer.
    Hello(NamedVector),
    /// Lines for a peer, whether it lacks more than these, and whether it knows more of this number's operations than are here.
    Bundle {
        lines: String,
        has_more: bool,
        is_beyond: bool,
    },
    /// How many lines were taken, which were refused, and where reading the bundle stopped, if it did.
    Received {
        taken: u64,
        refused: Option<RefusedLines>,
        stopped: Option<StoppedLine>,
    },
    /// The length: all of it is saved.
    Saved(u64),
    /// The number, the length, and how many operations of it are saved.
    Status {
        number: u32,
        length: u64,
        saved: u64,
    },
    /// The number and the length with which the program begins.
    Ready {
        number: u32,
        length: u64,
    },
    /// The length, and how many operations of it are saved: what was called for is in the document, but couldn't be saved.
    Unsaved {
        length: u64,
        saved: u64,
    },
    /// It isn't known what is saved.
    Lost,
}

/// The lines of a bundle that were refused.
#[derive(Clone, Copy, Debug)]
pub struct RefusedLines {
    pub count: u64,
    /// The first one, from 1, and why it was refused.
    pub line: u64,
    pub why: Refusal,
}

/// The line, from 1, at which reading a bundle stopped, and why.
#[derive(Clone, Copy, Debug)]
pub struct StoppedLine {
    pub line: u64,
    pub why: Refusal,
}
