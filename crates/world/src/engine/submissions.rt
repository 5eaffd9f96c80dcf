//! What clients of an engine submit to its queue.

ghost use Rattle.std.specs.Prelude.{◌≡◌, ◌++◌, ◌∷◌, [], ◌+◌, ◌<◌, OnOk, OnErr, IfOk, Option, Some, length, slice_get};
ghost use Rattle.semantics.specs.LegalAnswer.{OfCommand};
ghost use Rattle.semantics.specs.Engine.{Client as TheClient};
ghost use Rattle.semantics.specs.WriteSteps.{push, with_cell};
ghost use Rattle.replica.specs.operation.Ops.{command_of};
ghost use Rattle.replica.specs.operation.Submissions.{request_of, submitted_of};
ghost use Rattle.world.specs.Engines.{client_of, taken_or_denied};
ghost use Rattle.world.specs.Acts.{step_reply_of};

use crate::client::Client;
use crate::engine::Engine;
use crate::step::WorldReply;
use ids::Refusal;
use replica::{Command, Request, Shared, Submission};
use std::alloc::AllocError;
use std::collections::VecDeque;

impl Engine {
    /// A client submits the command, which the step and the history share.
    ///
    /// # Errors
    /// `AllocError` if allocation fails.
    pub fn push(
        &mut self,
        client: usize,
        command: &Shared<Command>,
    ) -> Result<WorldReply, AllocError>
        ensures engine { OnOk result (self.new ≡ (push self.old client (OfCommand (command_of command.now))).engine) }
        ensures reply { IfOk result (λ r. step_reply_of r ≡ (push self.old client (OfCommand (command_of command.now))).reply) }
        ensures unchanged { OnErr result (self.new ≡ self.old) }
    {
        if client >= self.clients.len() {
            return Ok(WorldReply::Idle);
        }
        let serial = self.next_serial(client);
        match self.submit(client, Request::Command(command.clone()?))? {
            Some(why) => Ok(WorldReply::Denied(why)),
            None => Ok(WorldReply::Ticket(serial)),
        }
    }

    /// The serial of a client's next submission.
    pub(super) fn next_serial(&self, client: usize) -> u64
        requires { client < length self.now.clients }
        ensures { (k : TheClient) → slice_get self.now.clients client ≡ Some k → result ≡ length k.cells + 1 }
    {
        self.clients[client].cells.len() as u64 + 1
    }

    /// A client that exists submits a request. Returns why it was refused, or `None` if it was taken.
    ///
    /// # Errors
    /// `AllocError` if allocation fails.
    pub(super) fn submit(
        &mut self,
        client: usize,
        request: Request,
    ) -> Result<Option<Refusal>, AllocError>
        requires there { client < length self.old.clients }
        ensures engine { OnOk result (self.new ≡ (push self.old client (request_of request)).engine) }
        ensures reply { IfOk result
            (λ w. (k : TheClient) → slice_get self.old.clients client ≡ Some k
            → (push self.old client (request_of request)).reply ≡ taken_or_denied (length k.cells + 1) w) }
        ensures unchanged { OnErr result (self.new ≡ self.old) }
    {
        let k = &self.clients[client];
        if k.cells.len() as u64 >= self.serials {
            return Ok(Some(Refusal::SerialEnd));
        }
        if self.queue.len() >= self.capacity {
            return Ok(Some(Refusal::QueueFull));
        }
        let submission = k.next_submission(client, request);
        let k = &mut self.clients[client];
        enqueue(&mut self.queue, k, submission)?;
        Ok(None)
    }
}

/// Keeps a submission for its client, and appends it to the queue. Both share what was submitted.
///
/// # Errors
/// `AllocError` if allocation fails. Nothing is kept or queued then.
fn enqueue(
    queue: &mut VecDeque<Submission>,
    k: &mut Client,
    submission: Submission,
) -> Result<(), AllocError>
    ensures queue { OnOk result (queue.new.items ≡ queue.old.items ++ submission ∷ []) }
    ensures client { OnOk result
        (client_of k.new ≡ with_cell (client_of k.old) (submitted_of submission)) }
    ensures unqueued { OnErr result (queue.new.items ≡ queue.old.items) }
    ensures unchanged { OnErr result (client_of k.new ≡ client_of k.old) }
{
    let kept = submission.clone()?;
    queue.reserve(1)?;
    k.keep(kept)?;
    queue.push_back_reserved(submission);
    Ok(())
}
