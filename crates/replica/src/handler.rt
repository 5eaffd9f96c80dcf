//! A replica that handles submissions, and hands each entry to a publisher.

ghost use Rattle.std.specs.Prelude.{◌≡◌, ◌≢◌, ◌≤◌, false, length, Err, IsTrue, OnOk, OnErr};
ghost use Rattle.ids.specs.Members.{is_member};
ghost use Rattle.ids.specs.declared.refusal.Refusal.TheVariants.{NoMemory};
ghost use Rattle.semantics.specs.Entries.{IsAbove};
ghost use Rattle.semantics.specs.LegalAnswer.{OfCommand, OfPeer, Submitted};
ghost use Rattle.semantics.specs.Replica.{IsRunning, commit_own};
ghost use Rattle.semantics.specs.Delivery.{answer_to, deliver};
ghost use Rattle.semantics.specs.WriteSteps.{reply_delivered};
ghost use Rattle.inbox.specs.operation.Ops.{command_of, stamped_of};
ghost use Rattle.inbox.specs.document.Documents.{HasRoomFor};
ghost use Rattle.replica.specs.Replicas.{IsMade, replica_of};
ghost use Rattle.semantics.specs.Handling.{Handles, Resumes};
ghost use Rattle.semantics.specs.Publication.{Holds};
ghost use Rattle.inbox.specs.operation.Submissions.{reply_of, submitted_of};
ghost use Rattle.replica.specs.Handlers.{outcome_of, handler_of};

use crate::replica::Replica;
use ids::Refusal;
use inbox::{Command, Delivered, Entry, Op, Publish, Reply, Request, Shared, Submission};
use std::alloc::{AllocError, Global};

/// A replica whose entries each go to a publisher before they are appended.
#[derive(Debug, Drop)]
pub struct Handler {
    pub replica: Replica,
    /// Whether a failed allocation ended the last drain early.
    pub behind: bool,
}

impl Handler {
    /// A handler of a replica that has drained all that it can.
    pub fn new(replica: Replica) -> Handler
        ensures { (result.replica ≡ replica) × (result.behind ≡ false) }
    {
        Handler {
            replica,
            behind: false,
        }
    }

    /// Resumes the drain that a failed allocation ended early, if there is one. It may end early again.
    pub fn resume<P: Publish>(&mut self, alloc: Global, publisher: &mut P)
        requires holds { Holds (P.publication publisher.old) (replica_of self.old.replica) }
        ensures resumed { Resumes (handler_of self.old) (handler_of self.new) }
        ensures holds { Holds (P.publication publisher.new) (replica_of self.new.replica) }
        ensures published { (P.publication publisher.new).published ≡ (P.publication publisher.old).published }
    {
        if self.behind {
            self.behind = self.replica.drain(alloc, publisher).is_err();
        }
    }

    /// Handles a submission: appends what the rules make of a command, or delivers a peer's operation and drains the inbox. The reply says
    /// what was made or kept, or why not. A command or an operation is shared, not copied, however many keep it.
    ///
    /// If allocation fails for a command or for the delivery, the reply is `Refused(NoMemory, ..)` and nothing has changed. If it fails in
    /// the drain after the delivery, the drain ends early; the next delivery's drain, or `resume`, continues it.
    pub fn handle<P: Publish>(
        &mut self,
        alloc: Global,
        publisher: &mut P,
        submission: &Submission,
    ) -> Reply
        requires holds { Holds (P.publication publisher.old) (replica_of self.old.replica) }
        requires running { IsRunning (replica_of self.old.replica) }
        requires above { IsAbove submission.now.client submission.now.serial self.old.replica.document.entries }
        ensures handled { Handles (handler_of self.old) (submitted_of submission.now) (reply_of result)
            (handler_of self.new) }
        ensures holds { Holds (P.publication publisher.new) (replica_of self.new.replica) }
        ensures published { (P.publication publisher.new).published ≡ (P.publication publisher.old).published }
    {
        let length = self.replica.history_len();
        if submission.floor > length {
            return Reply::Refused(Refusal::BadFloor, length as u64);
        }
        match &submission.request {
            Request::Command(command) => {
                self.make(
                    alloc,
                    publisher,
                    submission.client,
                    submission.serial,
                    command,
                )
            }
            Request::Peer(op) => self.receive(alloc, publisher, op),
        }
    }

    /// Appends what the rules make of a client's command.
    fn make<P: Publish>(
        &mut self,
        alloc: Global,
        publisher: &mut P,
        client: usize,
        serial: u64,
        command: &Shared<Command>,
    ) -> Reply
        requires holds { Holds (P.publication publisher.old) (replica_of self.old.replica) }
        requires running { IsRunning (replica_of self.old.replica) }
        requires above { IsAbove client serial self.old.replica.document.entries }
        ensures handled { (x : Submitted) → x.client ≡ client → x.serial ≡ serial → x.request ≡ OfCommand (command_of command.now)
            → x.floor ≤ length self.old.replica.document.entries →
            Handles (handler_of self.old) x (reply_of result) (handler_of self.new) }
        ensures holds { Holds (P.publication publisher.new) (replica_of self.new.replica) }
        ensures published { (P.publication publisher.new).published ≡ (P.publication publisher.old).published }
    {
        let length = self.replica.history_len() as u64;
        let op = match self.replica.make(alloc, command) {
            Ok(op) => op,
            Err(why) => return Reply::Refused(why, length),
        };
        let id = op.id;
        match append_own(&mut self.replica, publisher, client, serial, command, op) {
            Ok(()) => Reply::Made(id, length),
            Err(AllocError) => Reply::Refused(Refusal::NoMemory, length),
        }
    }

    /// Delivers a peer's operation, and drains the inbox.
    fn receive<P: Publish>(&mut self, alloc: Global, publisher: &mut P, op: &Shared<Op>) -> Reply
        requires holds { Holds (P.publication publisher.old) (replica_of self.old.replica) }
        ensures handled { (x : Submitted) → x.request ≡ OfPeer (stamped_of op.now)
            → x.floor ≤ length self.old.replica.document.entries →
            Handles (handler_of self.old) x (reply_of result) (handler_of self.new) }
        ensures holds { Holds (P.publication publisher.new) (replica_of self.new.replica) }
        ensures published { (P.publication publisher.new).published ≡ (P.publication publisher.old).published }
    {
        let answer = deliver(&mut self.replica, op);
        if answer == Err(Refusal::NoMemory) {
            return Reply::Refused(Refusal::NoMemory, self.replica.history_len() as u64);
        }
        self.behind = self.replica.drain(alloc, publisher).is_err();
        reply_to(answer, self.replica.history_len() as u64)
    }
}

/// Delivers a peer's operation.
///
/// # Errors
/// The refusal of the rules, or `NoMemory` if allocation fails; then nothing has changed.
fn deliver(replica: &mut Replica, op: &Shared<Op>) -> Result<Delivered, Refusal>
    ensures delivered { let s = stamped_of op.now in
        result ≢ Err NoMemory
        → (answer_to (replica_of replica.old) s ≡ outcome_of result) × (replica_of replica.new ≡ deliver (replica_of replica.old) s) }
    ensures same { result ≡ Err NoMemory → replica_of replica.new ≡ replica_of replica.old }
{
    replica.deliver(op.clone()?)
}

/// The reply to a delivery, for a history that has this length afterwards.
fn reply_to(answer: Result<Delivered, Refusal>, length: u64) -> Reply
    ensures { reply_of result ≡ reply_delivered length (outcome_of answer) }
{
    match answer {
        Ok(Delivered::Kept) => Reply::Kept(length),
        Ok(Delivered::Known) => Reply::Known(length),
        Err(why) => Reply::Refused(why, length),
    }
}

/// Appends what was made of a command, first the entry to the publisher.
///
/// # Errors
/// `AllocError` if allocation fails. Nothing has changed then.
fn append_own<P: Publish>(
    replica: &mut Replica,
    publisher: &mut P,
    client: usize,
    serial: u64,
    command: &Shared<Command>,
    op: Shared<Op>,
) -> Result<(), AllocError>
    requires holds { Holds (P.publication publisher.old) (replica_of replica.old) }
    requires running { IsRunning (replica_of replica.old) }
    requires above { IsAbove client serial replica.old.document.entries }
    requires made { IsMade replica.old.document.entries replica.old.own (command_of command.now)
        (stamped_of op) }
    requires member { IsTrue (is_member replica.old.document.members op.id.replica) }
    requires room { HasRoomFor replica.old.document (stamped_of op) }
    ensures replica { OnOk result (replica_of replica.new
        ≡ commit_own (replica_of replica.old) client serial (command_of command.now) (stamped_of op)) }
    ensures same { OnErr result (replica_of replica.new ≡ replica_of replica.old) }
    ensures holds { Holds (P.publication publisher.new) (replica_of replica.new) }
    ensures published { (P.publication publisher.new).published ≡ (P.publication publisher.old).published }
{
    let entry = Entry::Own {
        client,
        serial,
        command: command.clone()?,
        op,
    };
    publisher.add(entry.clone()?)?;
    replica.commit_made(entry);
    Ok(())
}
