//! What an engine receives from other engines, and what its tokens send to them.

ghost use Rattle.std.specs.Prelude.{◌≡◌, ◌≢◌, ◌⊎◌, ◌++◌, ◌∷◌, [], ◌+◌, ◌<◌, ◌≤◌, ◌^◌, ◌==◌, cond, true, false, OnOk, OnErr, IfOk, IfNone};
ghost use Rattle.std.specs.Prelude.{IfSome, MatchResult, Option, Some, map, length, slice_get};
ghost use Rattle.ids.specs.declared.refusal.Refusal.TheVariants.{NoMemory};
ghost use Rattle.ids.specs.declared.refusal.Refusal.{Refusal as TheRefusal};
ghost use Rattle.semantics.specs.Engine.{Hello as HelloOf};
ghost use Rattle.semantics.specs.WriteSteps.{push};
ghost use Rattle.semantics.specs.PeerSteps.{answer_hello, answer_sent, lacked, published_vector, receive_lines};
ghost use Rattle.semantics.specs.PeerSteps.{receive_message, say_hello, submit_all};
ghost use Rattle.replica.specs.operation.Ops.{stamped_of};
ghost use Rattle.wire.specs.Bundles.{readable};
ghost use Rattle.world.specs.Engines.{IsNoHello, IsReachedEngine, first_of, message_of, stop_after};
ghost use Rattle.world.specs.Parts.{IsBetween};
ghost use Rattle.world.specs.Acts.{step_reply_of};

use crate::engine::Engine;
use crate::message::Message;
use crate::step::WorldReply;
use ids::Refusal;
use replica::{NamedVector, Op, Request, Shared};
use std::alloc::{AllocError, Global};
use wire::{LinesRead, read_lines};

impl Engine {
    /// A token sends a hello.
    ///
    /// # Errors
    /// `AllocError` if allocation fails.
    pub fn hello(
        &mut self,
        alloc: Global,
        messages: &mut Vec<Message>,
        token: usize,
    ) -> Result<WorldReply, AllocError>
        ensures engine { OnOk result (self.new ≡ (say_hello self.old token (length messages.old.items)).engine) }
        ensures reply { IfOk result (λ r. step_reply_of r ≡ (say_hello self.old token (length messages.old.items)).reply) }
        ensures sent { OnOk result (map message_of messages.new.items
            ≡ map message_of messages.old.items ++ HelloOf (published_vector self.old) ∷ []) }
        ensures unsent { OnErr result (map message_of messages.new.items ≡ map message_of messages.old.items) }
        ensures unchanged { OnErr result (self.new ≡ self.old) }
    {
        let message = messages.len() as u64;
        let vector = NamedVector::of(alloc, self.shown().applied().ids())?;
        messages.push(Message::Hello(vector.clone()?))?;
        self.see_published(token);
        Ok(WorldReply::Hello { message, vector })
    }

    /// A token answers a hello with a bundle of what the sender lacks. Shares those operations.
    ///
    /// # Errors
    /// `AllocError` if allocation fails.
    pub fn bundle(
        &mut self,
        alloc: Global,
        messages: &mut Vec<Message>,
        token: usize,
        message: usize,
    ) -> Result<WorldReply, AllocError>
        ensures engine { OnOk result (self.new
            ≡ (answer_hello self.old token (length messages.old.items) (slice_get (map message_of messages.old.items) message)).engine) }
        ensures reply { IfOk result
            (λ r. step_reply_of r
            ≡ (answer_hello self.old token (length messages.old.items) (slice_get (map message_of messages.old.items) message)).reply) }
        ensures sent { OnOk result (map message_of messages.new.items
            ≡ map message_of messages.old.items ++ answer_sent self.old (slice_get (map message_of messages.old.items) message)) }
        ensures unsent { OnErr result (map message_of messages.new.items ≡ map message_of messages.old.items) }
        ensures unchanged { OnErr result (self.new ≡ self.old) }
    {
        let Some(hello) = hello_at(messages, message) else {
            return Ok(WorldReply::NoMessage);
        };
        let bundle = self.lacked(alloc, hello)?;
        let message = messages.len() as u64;
        let operations = bundle.len() as u64;
        messages.push(Message::Bundle(bundle))?;
        self.see_published(token);
        Ok(WorldReply::Bundle {
            message,
            operations,
        })
    }

    /// The published operations that a hello doesn't cover, the oldest first.
    ///
    /// # Errors
    /// `AllocError` if allocation fails.
    fn lacked(&self, alloc: Global, hello: &NamedVector) -> Result<Vec<Shared<Op>>, AllocError>
        ensures { IfOk result (λ ops. map stamped_of ops.items ≡ lacked self.now hello.now) }
    {
        self.shown().missing(alloc, hello)
    }

    /// A client receives a bundle, and submits its operations, which the message and the history share.
    ///
    /// # Errors
    /// `AllocError` if allocation fails.
    pub fn deliver(
        &mut self,
        messages: &[Message],
        client: usize,
        message: usize,
    ) -> Result<WorldReply, AllocError>
        requires reached { IsReachedEngine self.old }
        ensures engine { OnOk result (self.new
            ≡ (receive_message self.old client (slice_get (map message_of messages.now) message)).engine) }
        ensures reply { IfOk result
            (λ r. step_reply_of r ≡ (receive_message self.old client (slice_get (map message_of messages.now) message)).reply) }
        ensures stopped { OnErr result
            (IsBetween self.old self.new (receive_message self.old client (slice_get (map message_of messages.now) message)).engine) }
    {
        let Some(Message::Bundle(bundle)) = messages.get(message) else {
            return Ok(WorldReply::NoMessage);
        };
        let ops = bundle.clone()?;
        let read = LinesRead { ops, stopped: None };
        self.receive(client, read)
    }

    /// A client receives bytes that may come from anywhere, and submits the operations on their lines, of either profile. The first line is
    /// relative to the empty vector, whatever was received before.
    ///
    /// # Errors
    /// `AllocError` if allocation fails.
    pub fn line(
        &mut self,
        alloc: Global,
        client: usize,
        text: &[u8],
    ) -> Result<WorldReply, AllocError>
        requires reached { IsReachedEngine self.old }
        ensures engine { OnOk result (self.new
            ≡ (receive_lines self.old client (readable [] text.now).operations
            (readable [] text.now).stopped).engine) }
        ensures reply { IfOk result
            (λ r. step_reply_of r
            ≡ (receive_lines self.old client (readable [] text.now).operations
            (readable [] text.now).stopped).reply) }
        ensures stopped { OnErr result
            (IsBetween self.old self.new
            (receive_lines self.old client (readable [] text.now).operations
            (readable [] text.now).stopped).engine) }
    {
        let read = read_lines(alloc, text);
        self.receive(client, read)
    }

    /// A client submits the operations that were read, up to the first that is refused; the line after them may be bad.
    ///
    /// # Errors
    /// `AllocError` if allocation fails, here or when the operations were read.
    fn receive(&mut self, client: usize, read: LinesRead) -> Result<WorldReply, AllocError>
        requires reached { IsReachedEngine self.old }
        ensures engine { OnOk result (self.new
            ≡ (receive_lines self.old client (map stamped_of read.ops.items) read.stopped).engine) }
        ensures reply { IfOk result
            (λ r. step_reply_of r
            ≡ (receive_lines self.old client (map stamped_of read.ops.items) read.stopped).reply) }
        ensures read { OnOk result (read.stopped ≢ Some NoMemory) }
        ensures stopped { OnErr result ((self.new ≡ self.old)
            ⊎ ((read.stopped ≢ Some NoMemory)
            × IsBetween self.old self.new
            (receive_lines self.old client (map stamped_of read.ops.items) read.stopped).engine)) }
    {
        let LinesRead { ops, stopped } = read;
        if stopped == Some(Refusal::NoMemory) {
            return Err(AllocError);
        }
        if client >= self.clients.len() {
            return Ok(WorldReply::Idle);
        }
        let serial = self.next_serial(client);
        let (submitted, refused) = self.submit_all(client, ops)?;
        let why = first_refusal(refused, stopped);
        Ok(WorldReply::Received {
            first: first_serial(submitted, serial),
            submitted,
            stopped: stop_after(submitted, why),
        })
    }

    /// A client that exists submits the operations, up to the first that is refused. Returns how many it submitted, and why the next one
    /// was refused, if it was.
    ///
    /// # Errors
    /// `AllocError` if allocation fails.
    fn submit_all(
        &mut self,
        client: usize,
        ops: Vec<Shared<Op>>,
    ) -> Result<(u64, Option<Refusal>), AllocError>
        requires reached { IsReachedEngine self.old }
        requires there { client < length self.old.clients }
        ensures few { IfOk result (λ p. p.0 ≤ length ops.items) }
        ensures submitted { IfOk result
            (λ p. (bad : Option TheRefusal) → submit_all client bad 0 self.old (map stamped_of ops.items)
            ≡ record { engine = self.new; submitted = p.0; stopped = stop_after p.0 (first_of p.1 bad) }) }
        ensures stopped { OnErr result ((bad : Option TheRefusal)
            → IsBetween self.old self.new (submit_all client bad 0 self.old (map stamped_of ops.items)).engine) }
    {
        let mut submitted = 0;
        for op in ops {
            if let Some(why) = self.submit(client, Request::Peer(op))? {
                return Ok((submitted, Some(why)));
            }
            submitted += 1;
        }
        Ok((submitted, None))
    }
}

/// The message of this number, if it is a hello.
fn hello_at(messages: &[Message], number: usize) -> Option<&NamedVector>
    ensures some { IfSome result
        (λ h. slice_get (map message_of messages.now) number ≡ Some (HelloOf h.now)) }
    ensures none { IfNone result (IsNoHello (slice_get (map message_of messages.now) number)) }
{
    match messages.get(number) {
        Some(Message::Hello(hello)) => Some(hello),
        _ => None,
    }
}

/// The first serial of this many submissions, which begin at `serial`; 0 if there are none.
fn first_serial(submitted: u64, serial: u64) -> u64
    ensures { result ≡ cond (submitted == 0) 0 serial }
{
    if submitted == 0 {
        return 0;
    }
    serial
}

/// The first of two refusals.
fn first_refusal(refused: Option<Refusal>, bad: Option<Refusal>) -> Option<Refusal>
    ensures { result ≡ first_of refused bad }
{
    match refused {
        Some(why) => Some(why),
        None => bad,
    }
}

/// The stop at the next line, if that was refused.
fn stop_after(submitted: u64, refused: Option<Refusal>) -> Option<(u64, Refusal)>
    requires { submitted + 1 < 2 ^ 64 }
    ensures { result ≡ stop_after submitted refused }
{
    refused.map(|why| (submitted + 1, why))
}
