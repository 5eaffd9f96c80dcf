//! The steps of a world and what they reply.

use ids::Refusal;
use replica::{Command, NamedVector, Question, Reading, Reply, Shared};

/// A step of a world: what the engine with this number does. Engines are numbered from 0.
#[derive(Debug, Drop)]
pub struct WorldStep {
    pub engine: usize,
    pub act: WorldAct,
}

/// What an engine does in a step. An engine's clients and the messages of a world are numbered from 0; an engine's tokens are first its
/// clients', then its readers'.
#[derive(Debug, Drop)]
pub enum WorldAct {
    /// A client submits a command.
    Push {
        client: usize,
        command: Shared<Command>,
    },
    /// The writer takes one submission and handles it.
    Take,
    /// The writer publishes what it handled.
    Publish,
    /// The writer sets the answer to the oldest submission that is published.
    Give,
    /// The writer takes up to a batch of submissions and handles them, publishes, and then sets their answers.
    WholeStep,
    /// A client polls one of its serials.
    Poll {
        client: usize,
        serial: u64,
    },
    /// A token asks.
    Ask {
        token: usize,
        question: Question,
    },
    /// A token learns of the answer to a client's serial.
    Learn {
        token: usize,
        client: usize,
        serial: u64,
    },
    /// A token sends a hello: the vector of what is published.
    SayHello {
        token: usize,
    },
    /// A token answers a hello with a bundle of what the sender lacks.
    AnswerHello {
        token: usize,
        message: usize,
    },
    /// A client receives a bundle.
    Deliver {
        client: usize,
        message: usize,
    },
    /// A client receives bytes that may come from anywhere, as lines of operations in either profile.
    Line {
        client: usize,
        text: Vec<u8>,
    },
    /// How many operations of peers the engine dropped.
    Dropped,
}

/// The reply to a step.
#[derive(Debug, Drop)]
pub enum WorldReply {
    /// The command was submitted under this serial.
    Ticket(u64),
    /// The command wasn't taken, or the serial isn't the client's.
    Denied(Refusal),
    /// A submission was taken and handled.
    Took,
    /// This many submissions were published, or answered by a whole step.
    Published(u64),
    /// The answer to this client's serial was set.
    Gave {
        client: usize,
        serial: u64,
    },
    /// There was nothing to do.
    Idle,
    /// There is no answer yet.
    Unanswered,
    /// The answer to what was submitted.
    Replied(Reply),
    /// How many entries the token has seen, and the answer from them.
    Read {
        seen: u64,
        reading: Reading,
    },
    /// How many entries the token has seen, and why there is no answer from them: the expression is refused.
    NotRead {
        seen: u64,
        why: Refusal,
    },
    /// The token has seen this many entries.
    Seen(u64),
    /// A hello was sent under this number, with this vector.
    Hello {
        message: u64,
        vector: NamedVector,
    },
    /// A bundle of this many operations was sent under this number.
    Bundle {
        message: u64,
        operations: u64,
    },
    /// There is no such message.
    NoMessage,
    /// The first serial, 0 if there is none, and how many operations were submitted; if that stopped, the line, counted from 1, and why.
    Received {
        first: u64,
        submitted: u64,
        stopped: Option<(u64, Refusal)>,
    },
    /// This many operations were dropped so far.
    Dropped(u64),
}
