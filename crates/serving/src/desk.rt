//! A document that answers calls, and saves what came of them.

ghost use Rattle.std.specs.Prelude.{◌≡◌, length, IfOk, IsUtf8, OnErr};
ghost use Rattle.session.specs.replica.operation.Ops.{command_of};
ghost use Rattle.calls.specs.Calls.{call_of};
ghost use Rattle.calls.specs.declared.response.Response.TheVariants as said;
ghost use Rattle.serving.specs.Desks.{Answers, AnswersLine, IsBundle, Sends, TakesIn, Writes, received_of};

mod opening;
mod saving;

use crate::answering::{ask, glance};
use calls::{Call, RefusedLines, Response, StoppedLine, read_call};
use ids::Refusal;
use session::{Answered, Command, Received, Session};
use std::alloc::{AllocError, Global};
use std::marker::Model;
use store::{Shelf, Store};

/// A document and the shelf that keeps it. Whatever a response says was made, received or saved would survive a loss of power. Contracts
/// see the replica of the definitions, how many of its entries are on the shelf, and what is known of the store.
#[derive(Drop)]
pub struct Desk<S: Store> {
    session: Session,
    shelf: Shelf<S>,
    /// How many entries are on the shelf.
    stored: usize,
}

impl<S: Store> Model for Desk<S> {
    ghost use Rattle.std.specs.Prelude.{◌≤◌, length};
    ghost use Rattle.std.specs.Coded.{codes};
    ghost use Rattle.semantics.specs.Codes.{coded_element};
    ghost use Rattle.serving.specs.Desks.{Desk};

    ghost Value = { Desk };

    ghost coded = { Prim.hlevel (codes, coded_element) };

    ghost view = { λ d. record {
      replica = d.session;
      stored = d.stored;
      held = d.shelf.held;
      synced = d.shelf.synced;
      is_lost = d.shelf.is_lost;
    } };
}

impl<S: Store> Desk<S> {
    /// What a program says before it takes requests: the number, and how many operations the history has.
    pub fn ready(&self) -> Response
        ensures { result ≡ said.Ready self.now.replica.own (length self.now.replica.entries) }
    {
        Response::Ready {
            number: self.session.own().number(),
            length: self.session.len() as u64,
        }
    }

    /// The session, for reads that no call asks for.
    pub fn session(&self) -> &Session
        ensures { result.now ≡ self.now.replica }
    {
        &self.session
    }

    /// The response to the call on a line, which is given without its line feed. A write and a receipt are saved before the response: one
    /// append and one sync of the store.
    ///
    /// # Errors
    /// `AllocError` if allocation fails before anything has changed. If it fails later, the response says so: `Refused` with `NoMemory`,
    /// the stop of a receipt, or `Unsaved`.
    pub fn answer(&mut self, alloc: Global, line: &[u8]) -> Result<Response, AllocError>
        ensures answer { IfOk result (λ r. AnswersLine self.old line.now r self.new) }
        ensures same { OnErr result (self.new ≡ self.old) }
    {
        match read_call(alloc, line) {
            Ok(call) => self.respond(alloc, call),
            Err(Refusal::NoMemory) => Err(AllocError),
            Err(why) => Ok(Response::Denied(why)),
        }
    }

    fn respond(&mut self, alloc: Global, call: Call) -> Result<Response, AllocError>
        ensures answer { IfOk result (λ r. Answers self.old (call_of call) r self.new) }
        ensures same { OnErr result (self.new ≡ self.old) }
    {
        match call {
            Call::Write(command) => Ok(self.write(alloc, command)),
            Call::Ask(question) => ask(alloc, self.session.document(), &question),
            Call::Glance {
                expression,
                depth,
                elements,
            } => glance(
                alloc,
                self.session.document(),
                &expression,
                depth as usize,
                elements as usize,
            ),
            Call::Hello => Ok(Response::Hello(self.session.hello(alloc)?)),
            Call::Answer(hello) => self.answer_hello(alloc, hello.as_bytes()),
            Call::Receive(bundle) => Ok(self.receive(alloc, bundle.as_bytes())),
            Call::Save => Ok(self.save_all(alloc)),
            Call::Status => Ok(self.status()),
        }
    }

    /// Makes an operation of a command, and saves it.
    fn write(&mut self, alloc: Global, command: Command) -> Response
        ensures { Writes self.old (command_of command) result self.new }
    {
        let position = self.session.len() as u64;
        match self.session.write(alloc, command) {
            Ok(id) => self.saved(alloc, Response::Made(id, position)),
            Err(why) => Response::Refused(why, position),
        }
    }

    /// Receives a bundle, and saves what was applied.
    fn receive(&mut self, alloc: Global, bundle: &[u8]) -> Response
        ensures { TakesIn self.old bundle.now result self.new }
    {
        let received = self.session.receive(alloc, bundle);
        self.saved(alloc, response_of(&received))
    }

    /// What a peer lacks, of the operations that are on the shelf.
    fn answer_hello(&self, alloc: Global, hello: &[u8]) -> Result<Response, AllocError>
        ensures { IfOk result (Sends self.now hello.now) }
    {
        match self.session.answer(alloc, hello, self.stored) {
            Ok(answered) => Ok(bundle_of(answered)),
            Err(Refusal::NoMemory) => Err(AllocError),
            Err(why) => Ok(Response::Denied(why)),
        }
    }

    fn status(&self) -> Response
        ensures { result ≡ said.Status self.now.replica.own (length self.now.replica.entries) self.now.stored }
    {
        Response::Status {
            number: self.session.own().number(),
            length: self.session.len() as u64,
            saved: self.stored as u64,
        }
    }
}

/// The response to a receipt.
fn response_of(received: &Received) -> Response
    ensures { result ≡ received_of received.now }
{
    Response::Received {
        taken: received.taken,
        refused: received.refused.map(|refused| RefusedLines {
            count: refused.count,
            line: refused.first_line,
            why: refused.why,
        }),
        stopped: received
            .stopped
            .map(|(line, why)| StoppedLine { line, why }),
    }
}

/// The response with an answer for a peer.
fn bundle_of(answered: Answered) -> Response
    requires { IsUtf8 answered.lines.items }
    ensures { IsBundle answered result }
{
    let Answered {
        lines,
        has_more,
        is_beyond,
    } = answered;
    let Ok(lines) = String::from_utf8(lines) else {
        unreachable!()
    };
    Response::Bundle {
        lines,
        has_more,
        is_beyond,
    }
}
