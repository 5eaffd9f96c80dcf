//! The writer of an engine: it takes what clients submitted and handles it, publishes, and sets the answers.

ghost use Rattle.std.specs.Prelude.{◌≡◌, ◌<◌, OnErr, OnOk, IfOk, map, ℕ};
ghost use Rattle.semantics.specs.Entries.{IsAbove};
ghost use Rattle.semantics.specs.Replica.{IsRunning};
ghost use Rattle.semantics.specs.Publication.{Holds};
ghost use Rattle.semantics.specs.WriteSteps.{after_submission, give, give_for, give_to, publish, reply_to, take_for, take_submission};
ghost use Rattle.semantics.specs.WriteSteps.{whole_step};
ghost use Rattle.replica.specs.Replicas.{replica_of};
ghost use Rattle.replica.specs.operation.Submissions.{reply_of, submitted_of};
ghost use Rattle.world.specs.Engines.{IsReachedEngine, client_of, given_of, is_no_memory};
ghost use Rattle.world.specs.Acts.{step_reply_of};
ghost use Rattle.world.specs.Parts.{IsHandledInPart, PublishesInPart, StepsInPart, TakesInPart};

use crate::client::{Client, Given};
use crate::engine::{Engine, Handled};
use crate::publisher::Publisher;
use crate::step::WorldReply;
use ids::Refusal;
use replica::{Handler, Reply, Submission};
use std::alloc::{AllocError, Global};
use std::mem;

impl Engine {
    /// The writer takes the oldest submission and handles it, if fewer than a batch are handled and none is due.
    ///
    /// # Errors
    /// `AllocError` if allocation fails. The submission may then be handled in part, and is still in the queue.
    pub fn take(&mut self, alloc: Global) -> Result<WorldReply, AllocError>
        requires { IsReachedEngine self.old }
        ensures engine { OnOk result (self.new ≡ (take_submission self.old).engine) }
        ensures reply { IfOk result (λ r. step_reply_of r ≡ (take_submission self.old).reply) }
        ensures stopped { OnErr result (TakesInPart self.old self.new) }
    {
        if !self.due.is_empty() || self.handled.len() >= self.batch {
            return Ok(WorldReply::Idle);
        }
        self.handled.reserve(1)?;
        let Some(submission) = self.queue.pop_front() else {
            return Ok(WorldReply::Idle);
        };
        let Ok(reply) = handle(alloc, &mut self.handler, &mut self.publisher, &submission) else {
            self.queue.push_front_reserved(submission);
            return Err(AllocError);
        };
        self.handled
            .push_back_reserved(Handled { submission, reply });
        Ok(WorldReply::Took)
    }

    /// The writer publishes all that it handled. Clones nothing.
    ///
    /// # Errors
    /// `AllocError` if allocation fails. Some entries may then be published.
    pub fn publish(&mut self, alloc: Global) -> Result<WorldReply, AllocError>
        ensures engine { OnOk result (self.new ≡ (publish self.old).engine) }
        ensures reply { IfOk result (λ r. step_reply_of r ≡ (publish self.old).reply) }
        ensures stopped { OnErr result (PublishesInPart self.old self.new) }
    {
        if !self.due.is_empty() || self.handled.is_empty() {
            return Ok(WorldReply::Idle);
        }
        let count = self.handled.len();
        self.publisher.publish(alloc)?;
        mem::swap(&mut self.handled, &mut self.due);
        Ok(WorldReply::Published(count as u64))
    }

    /// The writer sets the answer to the oldest published submission.
    pub fn give(&mut self) -> WorldReply
        ensures engine { self.new ≡ (give self.old).engine }
        ensures reply { step_reply_of result ≡ (give self.old).reply }
    {
        let Some(handled) = self.due.pop_front() else {
            return WorldReply::Idle;
        };
        let client = handled.submission.client;
        let serial = handled.submission.serial;
        let given = Given {
            reply: handled.reply,
            published: self.publisher.published().len(),
        };
        give_to(&mut self.clients, client, serial, given);
        WorldReply::Gave { client, serial }
    }

    /// The writer takes submissions while it may, publishes if it may, and then sets all answers.
    ///
    /// # Errors
    /// `AllocError` if allocation fails. Some submissions may then be handled, but not answered.
    pub fn step(&mut self, alloc: Global) -> Result<WorldReply, AllocError>
        requires { IsReachedEngine self.old }
        ensures engine { OnOk result (self.new ≡ (whole_step self.old).engine) }
        ensures reply { IfOk result (λ r. step_reply_of r ≡ (whole_step self.old).reply) }
        ensures stopped { OnErr result (StepsInPart self.old self.new) }
    {
        self.take_all(alloc)?;
        self.publish(alloc)?;
        let count = self.due.len();
        self.give_all(count);
        if count == 0 {
            return Ok(WorldReply::Idle);
        }
        Ok(WorldReply::Published(count as u64))
    }

    /// Takes up to a batch of submissions.
    ///
    /// # Errors
    /// `AllocError` if allocation fails. A submission may then be handled in part.
    fn take_all(&mut self, alloc: Global) -> Result<(), AllocError>
        requires { IsReachedEngine self.old }
        ensures engine { OnOk result (self.new ≡ take_for self.old.batch self.old) }
        ensures stopped { OnErr result ((n : ℕ) × (n < self.old.batch) × TakesInPart (take_for n self.old) self.new) }
    {
        for _ in 0..self.batch {
            if self.queue.is_empty() {
                return Ok(());
            }
            self.take(alloc)?;
        }
        Ok(())
    }

    /// Sets this many answers.
    fn give_all(&mut self, count: usize)
        ensures { self.new ≡ give_for count self.old }
    {
        for _ in 0..count {
            self.give();
        }
    }
}

/// Handles a submission according to the rules. Clones what the history keeps.
///
/// # Errors
/// `AllocError` if allocation fails. The submission may then be handled in part.
fn handle(
    alloc: Global,
    handler: &mut Handler,
    publisher: &mut Publisher,
    submission: &Submission,
) -> Result<Reply, AllocError>
    requires holds { Holds publisher.old (replica_of handler.old.replica) }
    requires running { IsRunning (replica_of handler.old.replica) }
    requires above { IsAbove submission.now.client submission.now.serial handler.old.replica.document.entries }
    ensures replica { OnOk result (replica_of handler.new.replica
        ≡ after_submission (replica_of handler.old.replica) (submitted_of submission.now)) }
    ensures reply { IfOk result
        (λ r. reply_of r ≡ reply_to (replica_of handler.old.replica) (submitted_of submission.now)) }
    ensures holds { Holds publisher.new (replica_of handler.new.replica) }
    ensures published { publisher.new.published ≡ publisher.old.published }
    ensures stopped { OnErr result
        (IsHandledInPart (replica_of handler.old.replica) (submitted_of submission.now)
        (replica_of handler.new.replica)) }
{
    let reply = handler.handle(alloc, publisher, submission);
    if handler.behind || is_no_memory(&reply) {
        return Err(AllocError);
    }
    Ok(reply)
}

/// Whether a submission was refused because an allocation failed.
fn is_no_memory(reply: &Reply) -> bool
    ensures { result ≡ is_no_memory (reply_of reply.now) }
{
    matches!(reply, Reply::Refused(Refusal::NoMemory, _))
}

/// Sets the answer to a client's serial.
fn give_to(clients: &mut Vec<Client>, client: usize, serial: u64, given: Given)
    ensures { map client_of clients.new.items
        ≡ give_to (map client_of clients.old.items) client serial (given_of given) }
{
    if client < clients.len() {
        let client = &mut clients[client];
        client.answer(serial, given);
    }
}
