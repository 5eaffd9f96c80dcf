//! One engine on one thread: its clients submit to a queue, its writer takes from it in batches, and tokens read what is published.

ghost use Rattle.std.specs.Prelude.{◌≡◌, OnOk, OnErr, IfOk, true, map, [], length, replicate, ◌++◌};
ghost use Rattle.ids.specs.Configurations.{is_within_limits};
ghost use Rattle.semantics.specs.World.{engine_step, opened_engine, sent_by};
ghost use Rattle.semantics.specs.Publication.{Holds};
ghost use Rattle.replica.specs.Replicas.{replica_of};
ghost use Rattle.world.specs.Engines.{IsReachedEngine, client_of, message_of};
ghost use Rattle.world.specs.Acts.{act_of, step_reply_of};
ghost use Rattle.world.specs.Parts.{IsInPart};

mod peers;
mod reading;
mod submissions;
mod writer;

use crate::client::Client;
use crate::message::Message;
use crate::publisher::Publisher;
use crate::step::{WorldAct, WorldReply};
use ids::Config;
use replica::{Document, Handler, Replica, Reply, Submission};
use std::alloc::{AllocError, Global};
use std::collections::VecDeque;
use std::marker::Model;

/// A submission that was handled, and its reply.
#[derive(Debug, Drop)]
pub struct Handled {
    submission: Submission,
    reply: Reply,
}

/// An engine. Contracts see the engine of the definitions.
#[derive(Debug, Drop)]
pub struct Engine {
    capacity: usize,
    batch: usize,
    serials: u64,
    handler: Handler,
    publisher: Publisher,
    queue: VecDeque<Submission>,
    /// Handled but not published.
    handled: VecDeque<Handled>,
    /// Published but not answered.
    due: VecDeque<Handled>,
    clients: Vec<Client>,
    readers: Vec<usize>,
}

impl Model for Engine {
    ghost use Rattle.std.specs.Prelude.{map, length};
    ghost use Rattle.std.specs.Coded.{codes};
    ghost use Rattle.semantics.specs.Codes.{coded_element};
    ghost use Rattle.semantics.specs.Engine.{Engine as TheEngine};
    ghost use Rattle.semantics.specs.Publication.{Holds};
    ghost use Rattle.replica.specs.Replicas.{replica_of};
    ghost use Rattle.replica.specs.operation.Submissions.{submitted_of};
    ghost use Rattle.world.specs.Engines.{client_of, handled_of};

    ghost Value = { TheEngine };

    ghost coded = { Prim.hlevel (codes, coded_element) };

    ghost view = { λ e. record {
      capacity = e.capacity;
      batch = e.batch;
      serials = e.serials;
      replica = replica_of e.handler.replica;
      queue = map submitted_of e.queue.items;
      handled = map handled_of e.handled.items;
      due = map handled_of e.due.items;
      published = length e.publisher.published;
      clients = map client_of e.clients.items;
      readers = e.readers.items;
    } };

    ghost invariant = { λ e. Holds e.publisher (replica_of e.handler.replica) };
}

impl Engine {
    /// A new engine, whose configuration must be within the limits.
    ///
    /// # Errors
    /// `AllocError` if allocation fails.
    pub fn open(alloc: Global, config: &Config) -> Result<Engine, AllocError>
        requires { is_within_limits config.now ≡ true }
        ensures engine { IfOk result (λ e. e ≡ opened_engine config.now) }
    {
        let clients = new_clients(alloc, config.clients as usize)?;
        let readers = new_readers(alloc, config.readers as usize)?;
        let (handler, publisher) = new_histories(alloc, config)?;
        Ok(Engine {
            capacity: config.queue as usize,
            batch: config.batch as usize,
            serials: u64::from(config.serials),
            handler,
            publisher,
            queue: VecDeque::new(alloc),
            handled: VecDeque::new(alloc),
            due: VecDeque::new(alloc),
            clients,
            readers,
        })
    }

    /// Does what a step says. `messages` are all that were sent before; what the act sends is appended to them.
    ///
    /// # Errors
    /// `AllocError` if allocation fails. The act may then be done in part.
    pub fn turn(
        &mut self,
        alloc: Global,
        messages: &mut Vec<Message>,
        act: &WorldAct,
    ) -> Result<WorldReply, AllocError>
        requires { IsReachedEngine self.old }
        ensures engine { OnOk result (self.new
            ≡ (engine_step (map message_of messages.old.items) (act_of act.now) self.old).engine) }
        ensures reply { IfOk result
            (λ r. step_reply_of r
            ≡ (engine_step (map message_of messages.old.items) (act_of act.now) self.old).reply) }
        ensures sent { OnOk result (map message_of messages.new.items
            ≡ map message_of messages.old.items
            ++ sent_by (map message_of messages.old.items) (act_of act.now) self.old) }
        ensures unsent { OnErr result (map message_of messages.new.items ≡ map message_of messages.old.items) }
        ensures stopped { OnErr result
            (IsInPart (map message_of messages.old.items) (act_of act.now) self.old self.new) }
    {
        match act {
            WorldAct::Push { client, command } => self.push(*client, command),
            WorldAct::Take => self.take(alloc),
            WorldAct::Publish => self.publish(alloc),
            WorldAct::Give => Ok(self.give()),
            WorldAct::WholeStep => self.step(alloc),
            WorldAct::Poll { client, serial } => Ok(self.poll(*client, *serial)),
            WorldAct::Ask { token, question } => self.ask(alloc, *token, question),
            WorldAct::Learn {
                token,
                client,
                serial,
            } => Ok(self.learn(*token, *client, *serial)),
            WorldAct::SayHello { token } => self.hello(alloc, messages, *token),
            WorldAct::AnswerHello { token, message } => self.bundle(
                alloc, messages, *token, *message,
            ),
            WorldAct::Deliver { client, message } => self.deliver(messages, *client, *message),
            WorldAct::Line { client, text } => self.line(alloc, *client, text),
            WorldAct::Dropped => Ok(WorldReply::Dropped(self.handler.replica.dropped())),
        }
    }
}

/// A handler of a new replica, and a publisher of its history. The configuration is within the limits, so only an allocation can fail.
fn new_histories(alloc: Global, config: &Config) -> Result<(Handler, Publisher), AllocError>
    requires { is_within_limits config.now ≡ true }
    ensures new { IfOk result
        (λ p. (replica_of p.0.replica ≡ (opened_engine config.now).replica) × Holds p.1 (replica_of p.0.replica) × (p.1.published ≡ [])) }
{
    let Ok(replica) = Replica::new(alloc, config.own, &config.members) else {
        return Err(AllocError);
    };
    let Ok(empty) = Document::new(alloc, &config.members) else {
        return Err(AllocError);
    };
    Ok((
        Handler::new(replica),
        Publisher::new(alloc, config.own, empty),
    ))
}

/// New readers, which have seen nothing.
fn new_readers(alloc: Global, count: usize) -> Result<Vec<usize>, AllocError>
    ensures readers { IfOk result (λ v. v.items ≡ replicate count 0) }
{
    let mut readers = Vec::new(alloc);
    readers.resize(count, 0)?;
    Ok(readers)
}

/// New clients, which have seen and submitted nothing.
fn new_clients(alloc: Global, count: usize) -> Result<Vec<Client>, AllocError>
    ensures clients { IfOk result
        (λ v. map client_of v.items ≡ replicate count (record { seen = 0; cells = [] })) }
{
    let mut clients = Vec::with_capacity(alloc, count)?;
    for _ in 0..count {
        clients.push(Client {
            seen: 0,
            cells: Vec::new(alloc),
        })?;
    }
    Ok(clients)
}
