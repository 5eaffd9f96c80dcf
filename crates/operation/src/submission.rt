//! What clients submit, and the answers to it.

ghost use Rattle.std.specs.Prelude.{◌≡◌};
ghost use Rattle.operation.specs.SameSubmissions.{is_same_submission, is_same_request};

use crate::command::Command;
use crate::op::Op;
use crate::shared::Shared;
use ids::{OpId, Refusal};
use std::alloc::AllocError;

/// What a client asks of the writer. Clones share the command, or the operation.
#[derive(Debug, Drop)]
pub enum Request {
    /// To make an operation of the command.
    Command(Shared<Command>),
    /// To take an operation of a peer.
    Peer(Shared<Op>),
}

impl Clone for Request {
    ghost is_clone = { λ q r. r ≡ q };

    fn clone(&self) -> Result<Request, AllocError> {
        match self {
            Request::Command(command) => Ok(Request::Command(command.clone()?)),
            Request::Peer(op) => Ok(Request::Peer(op.clone()?)),
        }
    }
}

/// A submission of a client: its number, the serial, the floor, which is the length of the history that it had seen, and the request.
#[derive(Debug, Drop)]
pub struct Submission {
    pub client: usize,
    pub serial: u64,
    pub floor: usize,
    pub request: Request,
}

impl Submission {
    /// Whether both are the same request, under the same client, serial and floor. Linear in the size of the request.
    pub fn is_same(&self, other: &Submission) -> bool
        ensures { result ≡ is_same_submission self.now other.now }
    {
        self.client == other.client
            && self.serial == other.serial
            && self.floor == other.floor
            && is_same_request(&self.request, &other.request)
    }
}

/// Whether both requests are the same.
fn is_same_request(request: &Request, other: &Request) -> bool
    ensures { result ≡ is_same_request request.now other.now }
{
    match (request, other) {
        (Request::Command(command), Request::Command(other)) => command == other,
        (Request::Peer(op), Request::Peer(other)) => op == other,
        _ => false,
    }
}

impl Clone for Submission {
    ghost is_clone = { λ x y. y ≡ x };

    fn clone(&self) -> Result<Submission, AllocError> {
        Ok(Submission {
            client: self.client,
            serial: self.serial,
            floor: self.floor,
            request: self.request.clone()?,
        })
    }
}

/// The answer to what a client submitted.
#[derive(Clone, Copy, Debug, PartialEq, Eq)]
pub enum Reply {
    /// The operation of this id is the entry at this position of the history, counted from 0.
    Made(OpId, u64),
    /// The peer's operation was new. The drain after its delivery applied it, or it waits. The history had this length then.
    Kept(u64),
    /// The peer's operation was known: applied already, or waiting. The history had this length then.
    Known(u64),
    /// Why it was refused, and the length of the history then.
    Refused(Refusal, u64),
}
